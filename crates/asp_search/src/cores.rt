//! Which assumptions a false assumption rests on.

ghost use Rattle.std.specs.Prelude.{◌≡◌, ℕ, ◌+◌, ◌*◌, ◌/◌, ◌<◌, ◌≤◌, ◌^◌, suc, [], ◌∷◌, length, IfOk, OnOk, slice_index};
ghost use Rattle.asp_clauses.specs.Literal.{negated};
ghost use Rattle.asp_clauses.specs.Trail.{IsPlaced};
ghost use Rattle.asp_search.specs.Fit.{AreFitted, AreKept};
ghost use Rattle.asp_search.specs.Cores.{IsTrace};

use crate::NoMemory;
use crate::analyze::{mark_cause, mark_reason};
use crate::seen::Seen;
use asp_clauses::{Book, Trail};
use asp_decide::DecisionHeap;
use std::alloc::Global;

/// The assumptions that can't all be true where the clauses hold: the false one, and the decisions that its negation
/// rests on. The marks are left to be taken back.
pub fn core_of(
    seen: &mut Seen,
    heap: &mut DecisionHeap,
    book: &Book,
    trail: &Trail,
    alloc: Global,
    failed: u32,
) -> Result<Vec<u32>, NoMemory>
    requires fitted { AreFitted book.now trail.now seen.old heap.old }
    requires unmarked { seen.old.marked ≡ [] }
    requires code { failed < 2 * trail.now.atoms }
    requires fails { IsPlaced trail.now.steps (negated failed) }
    ensures kept { AreKept seen.old heap.old seen.new heap.new }
    ensures trace { IfOk result (λ core. IsTrace book.now.clauses trail.now.steps seen.new.marked 0 core.items) }
    ensures first { IfOk result (λ core. slice_index core.items 0 ≡ failed) }
{
    let mut core = Vec::new(alloc);
    core.push(failed)?;
    mark_cause(seen, heap, trail, failed, trail.decisions())?;
    let mut end = trail.len();
    while end > 0 {
        end -= 1;
        trace(seen, heap, book, trail, &mut core, end)?;
    }
    Ok(core)
}

/// Follows a marked literal back: a decision joins the core, and an implied literal marks what its reason rests on.
fn trace(
    seen: &mut Seen,
    heap: &mut DecisionHeap,
    book: &Book,
    trail: &Trail,
    core: &mut Vec<u32>,
    place: u32,
) -> Result<(), NoMemory>
    requires fitted { AreFitted book.now trail.now seen.old heap.old }
    requires within { place < length trail.now.steps }
    requires trace { IsTrace book.now.clauses trail.now.steps seen.old.marked (suc place) core.old.items }
    ensures kept { AreKept seen.old heap.old seen.new heap.new }
    ensures trace { OnOk result (IsTrace book.now.clauses trail.now.steps seen.new.marked place core.new.items) }
    ensures first { OnOk result (slice_index core.new.items 0 ≡ slice_index core.old.items 0) }
{
    let literal = trail.at(place);
    if !seen.contains(literal) {
        return Ok(());
    }
    match trail.reason(literal / 2) {
        Some(reason) => {
            mark_reason(seen, heap, book, trail, reason, trail.decisions())?;
            Ok(())
        }
        None => {
            core.push(literal)?;
            Ok(())
        }
    }
}
