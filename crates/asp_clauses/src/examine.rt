//! The first look at a new clause: it chooses the two watched literals.

ghost use Rattle.std.specs.Prelude.{◌≡◌, ◌≢◌, ℕ, ◌+◌, ◌*◌, ◌<◌, ◌≤◌, Some, None, false, Ok, IsErr, OnOk, OnErr, length, slice_index};
ghost use Rattle.asp_clauses.specs.Literal.{negated};
ghost use Rattle.asp_clauses.specs.Trail.{IsPlaced};
ghost use Rattle.asp_clauses.specs.Book.{Goes, IsClause};
ghost use Rattle.asp_clauses.specs.Records.{row_at, end};
ghost use Rattle.asp_clauses.specs.Watches.{AreWatches, IsStore, book_of};
ghost use Rattle.asp_clauses.specs.Visits.{Propagates, IsStopped, IsConflict};
ghost use Rattle.asp_clauses.specs.Choices.{IsLatest, Chooses, Orders, MadeTrue, IsBarred};

use crate::records::LITERALS;
use crate::trail::{Spent, Step, Trail};
use crate::watches::Watches;

/// Looks at the first clause that is not yet watched, and has it watched unless it is false. Where it
/// is unit, its literal is placed.
pub fn examine(watches: &mut Watches, trail: &mut Trail) -> Result<Option<u32>, Spent>
    requires watches { AreWatches watches.old }
    requires goes { Goes (book_of watches.old) trail.old }
    requires left { watches.old.watched < length watches.old.records }
    ensures propagates { Propagates watches.old watches.new trail.old trail.new }
    ensures watched { result ≡ Ok None → watches.new.watched ≡ watches.old.watched + 1 }
    ensures conflict { (clause : ℕ) → result ≡ Ok (Some clause)
        → IsConflict (book_of watches.new) trail.new.steps clause }
    ensures spent { IsErr result → IsStopped (book_of watches.new) trail.new }
{
    let clause = watches.watched;
    if watches.records.cell(clause, 0) == 0 {
        return Ok(Some(clause));
    }
    order(watches, trail, clause);
    let first = watches.records.cell(clause, LITERALS);
    let second = watches.records.cell(clause, LITERALS + 1);
    if trail.is_false(first) {
        return Ok(Some(clause));
    }
    if !trail.is_false(second) {
        watches.watch();
        return Ok(None);
    }
    make_true(trail, first, clause)?;
    let visit = trail.position(second);
    trail.lower(visit);
    watches.watch();
    Ok(None)
}

/// Has the literal true: it is, or it is placed as implied by the clause.
pub fn make_true(trail: &mut Trail, literal: u32, clause: u32) -> Result<(), Spent>
    requires code { literal < 2 * trail.old.atoms }
    requires number { clause < end }
    requires stands { IsPlaced trail.old.steps (negated literal) → ⊥ }
    ensures ok { OnOk result (MadeTrue trail.old trail.new literal clause) }
    ensures err { OnErr result (IsBarred trail.old trail.new literal) }
{
    if trail.is_true(literal) {
        return Ok(());
    }
    if trail.is_spent() {
        return Err(Spent);
    }
    trail.place(Step {
        literal,
        reason: Some(clause),
    });
    Ok(())
}

/// Brings to the front the two literals that are false latest, or not at all.
fn order(watches: &mut Watches, trail: &Trail, clause: u32)
    requires store { IsStore watches.old }
    requires atoms { watches.old.atoms ≡ trail.now.atoms }
    requires clause { clause < length watches.old.records }
    requires some { 0 < slice_index (row_at watches.old.records clause) 0 }
    ensures { Orders watches.old watches.new trail.now clause }
{
    choose(watches, trail, clause, 0);
    if watches.records.cell(clause, 0) == 1 {
        return;
    }
    choose(watches, trail, clause, 1);
}

/// Brings to this index the literal from there on that is false latest, or not at all.
fn choose(watches: &mut Watches, trail: &Trail, clause: u32, index: u32)
    requires store { IsStore watches.old }
    requires atoms { watches.old.atoms ≡ trail.now.atoms }
    requires clause { clause < length watches.old.records }
    requires index { index < slice_index (row_at watches.old.records clause) 0 }
    ensures { Chooses watches.old watches.new trail.now clause index }
{
    let size = watches.records.cell(clause, 0);
    let mut best = index;
    for other in index + 1..size {
        if latest(watches, trail, clause, best) < latest(watches, trail, clause, other) {
            best = other;
        }
    }
    watches.records.swap(clause, LITERALS + index as usize, LITERALS + best as usize);
}

/// When the literal became false: its visit, or a number above all visits where it isn't false.
fn latest(watches: &Watches, trail: &Trail, clause: u32, index: u32) -> u32
    requires store { IsStore watches.now }
    requires atoms { watches.now.atoms ≡ trail.now.atoms }
    requires clause { clause < length watches.now.records }
    requires index { index < slice_index (row_at watches.now.records clause) 0 }
    ensures { IsLatest trail.now (slice_index (row_at watches.now.records clause) (3 + index)) result }
{
    let literal = watches.records.cell(clause, LITERALS + index as usize);
    if trail.is_false(literal) {
        trail.position(literal)
    } else {
        trail.len() + 1
    }
}
