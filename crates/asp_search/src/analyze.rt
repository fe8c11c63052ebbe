//! Why a clause is false: the conflict is resolved with the reasons of its literals, from the last one back, until
//! one literal of its level is left, the first unique implication point. Marks say which literals stand in the resolvent.

ghost use Rattle.std.specs.Prelude.{◌≡◌, ◌≢◌, ℕ, suc, ◌+◌, ◌*◌, ◌/◌, ◌<◌, ◌≤◌, ◌^◌, ◌↔◌, ◌⊎◌, [], ◌∷◌, length, true, false, IsTrue, IfOk, OnOk, MatchOption, slice_index};
ghost use Rattle.std.specs.List.{Contains};
ghost use Rattle.asp_clauses.specs.Literal.{negated};
ghost use Rattle.asp_clauses.specs.Trail.{IsFalse, IsPlaced, StandsAt, clause_at, literal_at, level_at, step_at};
ghost use Rattle.asp_clauses.specs.Book.{Goes};
ghost use Rattle.asp_search.specs.Learned.{Has, base_of, IsBased, IsGrounded};
ghost use Rattle.asp_search.specs.Analysis.{AreApart, AreMarked, AtMost, MarksReason, IsTopLevel, IsWalk, IsCut, IsLearned, IsRedundant, IsFixed, Takes};
ghost use Rattle.asp_search.specs.Fit.{AreFitted, AreKept};

use crate::NoMemory;
use crate::activity::{ClauseActivity, LevelCount};
use crate::seen::Seen;
use crate::solver::{is_true, opposite};
use asp_clauses::{Book, Trail};
use asp_decide::DecisionHeap;

/// The highest level of the literals that make a clause false; 0 where it is false from the start.
pub fn conflict_level(book: &Book, trail: &Trail, conflict: u32) -> u32
    requires goes { Goes book.now trail.now }
    requires clause { conflict < length book.now.clauses }
    requires fails { IsFalse trail.now.steps (clause_at book.now.clauses conflict) }
    ensures { IsTopLevel trail.now.steps (clause_at book.now.clauses conflict) result }
{
    let mut most = 0;
    for literal in book.lits(conflict) {
        most = most.max(trail.level(*literal / 2));
    }
    most
}

/// Marks what makes the literal false, and answers 1 where that is of the level.
#[tactic(auto, using(crate::proofs::Truth::codes))]
pub fn mark_cause(
    seen: &mut Seen,
    heap: &mut DecisionHeap,
    trail: &Trail,
    literal: u32,
    level: u32,
) -> Result<u32, NoMemory>
    requires code { literal < 2 * trail.now.atoms }
    requires codes { seen.old.codes ≡ 2 * trail.now.atoms }
    requires heap { heap.old.atoms ≡ trail.now.atoms }
    requires apart { AreApart trail.now.steps }
    requires most { AtMost trail.now.steps (literal ∷ []) level }
    requires marked { AreMarked trail.now.steps level seen.old.marked }
    ensures codes { seen.new.codes ≡ seen.old.codes }
    ensures heap { heap.new.atoms ≡ heap.old.atoms }
    ensures marks { IfOk result (λ pending. MarksReason trail.now.steps (literal ∷ []) level seen.old.marked seen.new.marked pending) }
    ensures one { IfOk result (λ pending. pending ≤ 1) }
{
    let cause = opposite(literal);
    if !is_true(trail, cause) {
        return Ok(0);
    }
    let at = trail.level(cause / 2);
    if at == 0 {
        return Ok(0);
    }
    if seen.contains(cause) {
        return Ok(0);
    }
    seen.insert(cause)?;
    heap.bump(cause / 2);
    Ok(if at == level { 1 } else { 0 })
}

/// Marks what makes literals of the clause false, and answers how many of the new marks are of the level.
pub fn mark_reason(
    seen: &mut Seen,
    heap: &mut DecisionHeap,
    book: &Book,
    trail: &Trail,
    clause: u32,
    level: u32,
) -> Result<usize, NoMemory>
    requires fitted { AreFitted book.now trail.now seen.old heap.old }
    requires clause { clause < length book.now.clauses }
    requires most { AtMost trail.now.steps (clause_at book.now.clauses clause) level }
    requires marked { AreMarked trail.now.steps level seen.old.marked }
    ensures kept { AreKept seen.old heap.old seen.new heap.new }
    ensures marks { IfOk result
        (λ pending. MarksReason trail.now.steps (clause_at book.now.clauses clause) level seen.old.marked seen.new.marked pending) }
{
    let mut pending = 0usize;
    for literal in book.lits(clause) {
        pending += mark_cause(seen, heap, trail, *literal, level)? as usize;
    }
    Ok(pending)
}

/// Resolves the literal at a place, of which all later ones are resolved: answers how many of its level are left, or
/// none where it is the only one.
fn resolve(
    seen: &mut Seen,
    heap: &mut DecisionHeap,
    activity: &mut ClauseActivity,
    book: &Book,
    trail: &Trail,
    place: u32,
    pending: usize,
    level: u32,
    loose: bool,
) -> Result<Option<usize>, NoMemory>
    requires fitted { AreFitted book.now trail.now seen.old heap.old }
    requires grounded { IsGrounded (base_of book.now loose) book.now.clauses trail.now.steps }
    requires based { IsBased (base_of book.now loose) book.now.clauses trail.now.steps seen.old.marked place pending }
    requires walk { IsWalk (base_of book.now loose) trail.now.steps seen.old.marked level (suc place) pending }
    ensures kept { AreKept seen.old heap.old seen.new heap.new }
    ensures activity { activity.new ≡ activity.old }
    ensures walk { IfOk result (λ rest. MatchOption rest
        (IsCut (base_of book.now loose) trail.now.steps seen.new.marked level place)
        (λ left. IsWalk (base_of book.now loose) trail.now.steps seen.new.marked level place left)) }
{
    let literal = trail.at(place);
    if !seen.contains(literal) {
        return Ok(Some(pending));
    }
    let reason = match trail.reason(literal / 2) {
        Some(reason) => reason,
        None => return Ok(None),
    };
    if pending == 1 {
        return Ok(None);
    }
    activity.bump(reason);
    let newly = mark_reason(seen, heap, book, trail, reason, level)?;
    Ok(Some(pending - 1 + newly))
}

/// Whether a derivation is loose that uses the clause: it was before, or the clause is.
fn loosened_by(book: &Book, clause: u32, loose: bool) -> bool
    requires { clause < length book.now.clauses }
    ensures grows { loose ≡ true → result ≡ true }
    ensures based { Has (base_of book.now result) (clause_at book.now.clauses clause) }
{
    if loose {
        return true;
    }
    book.kind(clause).loose
}

/// Whether a derivation is loose once the literal at the place is resolved, where it is to be.
fn loosened(
    seen: &Seen,
    book: &Book,
    trail: &Trail,
    place: u32,
    pending: usize,
    loose: bool,
) -> bool
    requires goes { Goes book.now trail.now }
    requires codes { seen.now.codes ≡ 2 * trail.now.atoms }
    requires within { place < length trail.now.steps }
    ensures grows { loose ≡ true → result ≡ true }
    ensures based { IsBased (base_of book.now result) book.now.clauses trail.now.steps seen.now.marked place pending }
{
    let literal = trail.at(place);
    if !seen.contains(literal) {
        return loose;
    }
    if pending == 1 {
        return loose;
    }
    match trail.reason(literal / 2) {
        Some(reason) => loosened_by(book, reason, loose),
        None => loose,
    }
}

/// Resolves a conflict down to one literal of its level, and answers the place of that one. `loose` becomes true where
/// a loose clause is used.
pub fn resolve_conflict(
    seen: &mut Seen,
    heap: &mut DecisionHeap,
    activity: &mut ClauseActivity,
    loose: &mut bool,
    book: &Book,
    trail: &Trail,
    conflict: u32,
    level: u32,
) -> Result<u32, NoMemory>
    requires fitted { AreFitted book.now trail.now seen.old heap.old }
    requires unmarked { seen.old.marked ≡ [] }
    requires clause { conflict < length book.now.clauses }
    requires fails { IsFalse trail.now.steps (clause_at book.now.clauses conflict) }
    requires top { IsTopLevel trail.now.steps (clause_at book.now.clauses conflict) level }
    requires decided { 0 < level }
    requires grounded { IsGrounded (base_of book.now loose.old) book.now.clauses trail.now.steps }
    ensures kept { AreKept seen.old heap.old seen.new heap.new }
    ensures activity { activity.new ≡ activity.old }
    ensures grounded { IfOk result (λ _. IsGrounded (base_of book.now loose.new) book.now.clauses trail.now.steps) }
    ensures cut { IfOk result (λ place. IsCut (base_of book.now loose.new) trail.now.steps seen.new.marked level place) }
{
    *loose = loosened_by(book, conflict, *loose);
    activity.bump(conflict);
    let mut pending = mark_reason(seen, heap, book, trail, conflict, level)?;
    let mut end = trail.len();
    loop {
        end -= 1;
        *loose = loosened(seen, book, trail, end, pending, *loose);
        match resolve(
            seen, heap, activity, book, trail, end, pending, level, *loose,
        )? {
            Some(left) => pending = left,
            None => return Ok(end),
        }
    }
}

/// Whether the clause can't be used, since it is loose and the derivation isn't.
pub fn is_barred(book: &Book, clause: u32, loose: bool) -> bool
    requires { clause < length book.now.clauses }
    ensures { result ≡ false → Has (base_of book.now loose) (clause_at book.now.clauses clause) }
{
    if loose {
        return false;
    }
    book.kind(clause).loose
}

/// Whether another literal of a reason is false by what is marked, or placed before the first decision.
#[tactic(auto, using(crate::proofs::Truth::codes))]
fn is_excused(seen: &Seen, trail: &Trail, literal: u32, other: u32) -> bool
    requires code { other < 2 * trail.now.atoms }
    requires codes { seen.now.codes ≡ 2 * trail.now.atoms }
    requires fails { other ≢ literal → IsPlaced trail.now.steps (negated other) }
    ensures { IsTrue result → other ≢ literal
        → IsFixed trail.now.steps (negated other) ⊎ Contains seen.now.marked (negated other) }
{
    if other == literal {
        return true;
    }
    let cause = opposite(other);
    if seen.contains(cause) {
        return true;
    }
    trail.level(cause / 2) == 0
}

/// Whether the literal is implied by others that are marked, or placed before the first decision; by a loose clause only
/// where the derivation is loose.
fn is_redundant(seen: &Seen, book: &Book, trail: &Trail, literal: u32, loose: bool) -> bool
    requires goes { Goes book.now trail.now }
    requires codes { seen.now.codes ≡ 2 * trail.now.atoms }
    requires placed { IsPlaced trail.now.steps literal }
    ensures { IsTrue result
        → (place : ℕ) → place < length trail.now.steps → literal_at trail.now.steps place ≡ literal
        → IsRedundant (base_of book.now loose) book.now.clauses trail.now.steps seen.now.marked place }
{
    let reason = match trail.reason(literal / 2) {
        Some(reason) => reason,
        None => return false,
    };
    if is_barred(book, reason, loose) {
        return false;
    }
    for other in book.lits(reason) {
        if !is_excused(seen, trail, literal, *other) {
            return false;
        }
    }
    true
}

/// Adds the negation of a marked literal of a lower level, unless it is redundant, and answers the highest level so far.
fn take_marked(
    learned: &mut Vec<u32>,
    levels: &mut LevelCount,
    seen: &Seen,
    book: &Book,
    trail: &Trail,
    literal: u32,
    level: u32,
    target: u32,
    loose: bool,
) -> Result<u32, NoMemory>
    requires goes { Goes book.now trail.now }
    requires codes { seen.now.codes ≡ 2 * trail.now.atoms }
    requires placed { IsPlaced trail.now.steps literal }
    ensures { IfOk result (λ next.
        Takes (base_of book.now loose) book.now.clauses trail.now.steps seen.now.marked literal level learned.old.items learned.new.items target next) }
{
    let at = trail.level(literal / 2);
    if at >= level {
        return Ok(target);
    }
    if is_redundant(seen, book, trail, literal, loose) {
        return Ok(target);
    }
    learned.push(opposite(literal))?;
    levels.insert(at);
    Ok(target.max(at))
}

/// Writes the clause that the marks give, and answers the highest level of its literals but for the one at the place.
pub fn learn(
    learned: &mut Vec<u32>,
    levels: &mut LevelCount,
    seen: &Seen,
    book: &Book,
    trail: &Trail,
    place: u32,
    level: u32,
    loose: bool,
) -> Result<u32, NoMemory>
    requires goes { Goes book.now trail.now }
    requires codes { seen.now.codes ≡ 2 * trail.now.atoms }
    requires grounded { IsGrounded (base_of book.now loose) book.now.clauses trail.now.steps }
    requires cut { IsCut (base_of book.now loose) trail.now.steps seen.now.marked level place }
    ensures { IfOk result (λ target.
        IsLearned trail.now.atoms (base_of book.now loose) trail.now.steps learned.new.items place target) }
{
    levels.restart();
    levels.insert(level);
    learned.clear();
    learned.push(opposite(trail.at(place)))?;
    let mut target = 0;
    for literal in seen.as_slice() {
        target = take_marked(
            learned, levels, seen, book, trail, *literal, level, target, loose,
        )?;
    }
    Ok(target)
}
