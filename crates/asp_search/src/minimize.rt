//! What follows from the marked literals of lower levels is marked too, so that the learned clause needn't name it.
//!
//! Marks steer only which literals are left out: whether one may be is asked anew when the clause is written.

ghost use Rattle.std.specs.Prelude.{◌≡◌, ◌≢◌, ℕ, ◌+◌, ◌*◌, ◌/◌, ◌<◌, ◌≤◌, ◌^◌, ◌⊎◌, ◌++◌, ◌∷◌, [], length, IfOk, OnOk, slice_index};
ghost use Rattle.std.specs.List.{Contains};
ghost use Rattle.asp_clauses.specs.Literal.{negated};
ghost use Rattle.asp_clauses.specs.Trail.{IsPlaced, StandsAt, literal_at, level_at};
ghost use Rattle.asp_clauses.specs.Book.{Goes};
ghost use Rattle.asp_search.specs.Meaning.{Mentions};
ghost use Rattle.asp_search.specs.Learned.{base_of};
ghost use Rattle.asp_search.specs.Analysis.{AreMarked, IsMarkedAt};
ghost use Rattle.asp_search.specs.Minimize.{IsBelow, MarksBelow, MarksOne};

use crate::NoMemory;
use crate::analyze::is_barred;
use crate::seen::Seen;
use crate::solver::opposite;
use asp_clauses::{Book, Trail};

/// The levels of a clause that is being learned.
#[derive(Clone, Copy)]
struct Levels {
    // The highest.
    top: u32,
    // A bit for each; levels that differ by 64 share one.
    bits: u64,
    // Whether the clause is loose, so that it may rest on loose clauses.
    loose: bool,
}

/// Marks what follows from the marked literals, as far as it is found to.
pub fn mark_implied(
    seen: &mut Seen,
    book: &Book,
    trail: &Trail,
    level: u32,
    loose: bool,
) -> Result<(), NoMemory>
    requires goes { Goes book.now trail.now }
    requires codes { seen.old.codes ≡ 2 * trail.now.atoms }
    requires marked { AreMarked trail.now.steps level seen.old.marked }
    requires mentions { (literal : ℕ) → Contains seen.old.marked literal → Mentions (base_of book.now loose) (literal / 2) }
    ensures codes { seen.new.codes ≡ seen.old.codes }
    ensures marks { OnOk result (MarksBelow (base_of book.now loose) trail.now.steps level seen.old.marked seen.new.marked) }
{
    let levels = levels_of(seen, trail, level, loose);
    for place in 0..seen.len() {
        let literal = seen.at(place);
        mark_cone(seen, book, trail, literal, &levels)?;
    }
    Ok(())
}

/// The levels of the marked literals.
fn levels_of(seen: &Seen, trail: &Trail, level: u32, loose: bool) -> Levels
    requires marked { AreMarked trail.now.steps level seen.now.marked }
    ensures top { result.top ≡ level }
    ensures loose { result.loose ≡ loose }
{
    let mut bits = 0u64;
    for literal in seen.as_slice() {
        bits |= 1u64 << (trail.level(*literal / 2) % 64);
    }
    Levels {
        top: level,
        bits,
        loose,
    }
}

/// Marks all that a marked literal of a lower level rests on, where it follows from literals that are marked already;
/// else nothing.
fn mark_cone(
    seen: &mut Seen,
    book: &Book,
    trail: &Trail,
    literal: u32,
    levels: &Levels,
) -> Result<(), NoMemory>
    requires goes { Goes book.now trail.now }
    requires codes { seen.old.codes ≡ 2 * trail.now.atoms }
    requires marked { IsMarkedAt trail.now.steps levels.now.top literal }
    requires mentioned { Mentions (base_of book.now levels.now.loose) (literal / 2) }
    ensures codes { seen.new.codes ≡ seen.old.codes }
    ensures marks { OnOk result (MarksBelow (base_of book.now levels.now.loose) trail.now.steps levels.now.top seen.old.marked seen.new.marked) }
{
    if trail.level(literal / 2) >= levels.top {
        return Ok(());
    }
    let count = seen.len();
    if mark_causes(seen, book, trail, literal, levels)? {
        return Ok(());
    }
    seen.truncate(count);
    Ok(())
}

/// Marks what the literal rests on, and what that rests on in turn; false where something of it can't follow from
/// what was marked before.
fn mark_causes(
    seen: &mut Seen,
    book: &Book,
    trail: &Trail,
    literal: u32,
    levels: &Levels,
) -> Result<bool, NoMemory>
    requires goes { Goes book.now trail.now }
    requires codes { seen.old.codes ≡ 2 * trail.now.atoms }
    requires below { IsBelow (base_of book.now levels.now.loose) trail.now.steps levels.now.top literal }
    ensures codes { seen.new.codes ≡ seen.old.codes }
    ensures marks { IfOk result (λ _.
        MarksBelow (base_of book.now levels.now.loose) trail.now.steps levels.now.top seen.old.marked seen.new.marked) }
{
    let count = seen.len();
    if !mark_antecedents(seen, book, trail, literal, levels)? {
        return Ok(false);
    }
    // The new marks are the queue; each is another literal of the trail.
    for place in count..count.saturating_add(trail.len() as usize) {
        if place >= seen.len() {
            return Ok(true);
        }
        let next = seen.at(place);
        if !mark_antecedents(seen, book, trail, next, levels)? {
            return Ok(false);
        }
    }
    Ok(false)
}

/// Marks what makes the other literals of the literal's reason false; false where that can't follow from marked literals,
/// or where the reason is loose and the clause isn't to be.
fn mark_antecedents(
    seen: &mut Seen,
    book: &Book,
    trail: &Trail,
    literal: u32,
    levels: &Levels,
) -> Result<bool, NoMemory>
    requires goes { Goes book.now trail.now }
    requires codes { seen.old.codes ≡ 2 * trail.now.atoms }
    requires below { IsBelow (base_of book.now levels.now.loose) trail.now.steps levels.now.top literal }
    ensures codes { seen.new.codes ≡ seen.old.codes }
    ensures marks { IfOk result (λ _.
        MarksBelow (base_of book.now levels.now.loose) trail.now.steps levels.now.top seen.old.marked seen.new.marked) }
{
    let reason = match trail.reason(literal / 2) {
        Some(reason) => reason,
        None => return Ok(false),
    };
    if is_barred(book, reason, levels.loose) {
        return Ok(false);
    }
    for other in book.lits(reason) {
        if !mark_antecedent(seen, trail, literal, *other, levels)? {
            return Ok(false);
        }
    }
    Ok(true)
}

/// Marks what makes another literal of a reason false, unless it is fixed; false where it is a decision, or of a level that
/// no marked literal has.
#[tactic(auto, using(crate::proofs::Truth::codes))]
fn mark_antecedent(
    seen: &mut Seen,
    trail: &Trail,
    literal: u32,
    other: u32,
    levels: &Levels,
) -> Result<bool, NoMemory>
    requires code { other < 2 * trail.now.atoms }
    requires codes { seen.old.codes ≡ 2 * trail.now.atoms }
    requires fails { other ≢ literal → IsPlaced trail.now.steps (negated other) }
    ensures codes { seen.new.codes ≡ seen.old.codes }
    ensures marks { IfOk result (λ _. MarksOne trail.now.steps literal other seen.old.marked seen.new.marked) }
{
    if other == literal {
        return Ok(true);
    }
    let cause = opposite(other);
    if seen.contains(cause) {
        return Ok(true);
    }
    let level = trail.level(cause / 2);
    if level == 0 {
        return Ok(true);
    }
    if trail.reason(cause / 2).is_none() {
        return Ok(false);
    }
    if (levels.bits >> (level % 64)) % 2 == 0 {
        return Ok(false);
    }
    seen.insert(cause)?;
    Ok(true)
}
