//! Unit propagation by two watched literals a clause.

ghost use Rattle.std.specs.Prelude.{◌≡◌, ◌≢◌, ℕ, ◌+◌, ◌*◌, ◌<◌, ◌≤◌, ◌⊎◌, List, [], ◌∷◌, Some, None, false, true, Ok, IsErr, length, slice_index, IsTrue};
ghost use Rattle.asp_clauses.specs.Trail.{IsPlaced, IsFalse, IsUnit, clause_at};
ghost use Rattle.asp_clauses.specs.Book.{Goes, IsClause, SameClauses, AllWatched, visit_at};
ghost use Rattle.asp_clauses.specs.Records.{row_at, end};
ghost use Rattle.asp_clauses.specs.Watches.{AreWatches, IsListed, IsStore, WatchingBelow, book_of};
ghost use Rattle.asp_clauses.specs.Visits.{Extends, Propagates, IsStopped, IsConflict, IsAt, MovesWatch, moved, other_watch};
ghost use Rattle.asp_clauses.specs.Choices.{IsNotFalse, RestIsFalse, IsFixpoint, IsVisit, StaysWatched, MovesOn};

use crate::book::Book;
use crate::examine::{examine, make_true};
use crate::records::END;
use crate::trail::{Spent, Trail};
use crate::watches::Watches;

/// Places implied literals until no clause is unit or one is false, and answers the false one. Whatever it answers, the
/// book keeps its clauses at their numbers, each up to the order of its literals, and the trail keeps what was placed.
/// `Spent`: the count of placements equals the budget, and some clause is unit.
pub fn propagate(book: &mut Book, trail: &mut Trail) -> Result<Option<u32>, Spent>
    requires goes { Goes book.old trail.old }
    ensures goes { Goes book.new trail.new }
    ensures clauses { SameClauses book.old.clauses book.new.clauses }
    ensures kinds { book.new.kinds ≡ book.old.kinds }
    ensures atoms { book.new.atoms ≡ book.old.atoms }
    ensures extended { Extends trail.old trail.new }
    ensures fixpoint { result ≡ Ok None → IsFixpoint book.new trail.new.steps }
    ensures conflict { (clause : ℕ) → result ≡ Ok (Some clause) → IsConflict book.new trail.new.steps clause }
    ensures spent { IsErr result → IsStopped book.new trail.new }
{
    run(&mut book.watches, trail)
}

fn run(watches: &mut Watches, trail: &mut Trail) -> Result<Option<u32>, Spent>
    requires watches { AreWatches watches.old }
    requires goes { Goes (book_of watches.old) trail.old }
    ensures propagates { Propagates watches.old watches.new trail.old trail.new }
    ensures watched { result ≡ Ok None → watches.new.watched ≡ length watches.new.records }
    ensures visited { result ≡ Ok None → trail.new.head ≡ length trail.new.steps + 1 }
    ensures conflict { (clause : ℕ) → result ≡ Ok (Some clause) → IsConflict (book_of watches.new) trail.new.steps clause }
    ensures spent { IsErr result → IsStopped (book_of watches.new) trail.new }
{
    'examining: while watches.watched < watches.records.len() {
        if let Some(clause) = examine(watches, trail)? {
            return Ok(Some(clause));
        }
    }
    'visiting: while let Some(falsified) = trail.next_visit() {
        if let Some(clause) = visit(watches, trail, falsified)? {
            return Ok(Some(clause));
        }
        trail.advance();
    }
    Ok(None)
}

/// What became of a clause that watches a literal which became false.
enum Visited {
    /// It goes on watching that literal.
    Stays,
    /// It watches another literal now.
    Moved,
    /// All its literals are false.
    False,
}

/// Visits the clauses that watch a literal which became false.
fn visit(watches: &mut Watches, trail: &mut Trail, falsified: u32) -> Result<Option<u32>, Spent>
    requires watches { AreWatches watches.old }
    requires goes { Goes (book_of watches.old) trail.old }
    requires visit { IsVisit trail.old falsified }
    ensures propagates { Propagates watches.old watches.new trail.old trail.new }
    ensures watched { watches.new.watched ≡ watches.old.watched }
    ensures head { trail.new.head ≡ trail.old.head }
    ensures visited { result ≡ Ok None → AllWatched (book_of watches.new) trail.new.steps (trail.new.head + 1) }
    ensures conflict { (clause : ℕ) → result ≡ Ok (Some clause) → IsConflict (book_of watches.new) trail.new.steps clause }
    ensures spent { IsErr result → IsStopped (book_of watches.new) trail.new }
{
    let mut previous = END;
    let mut clause = watches.heads[falsified as usize];
    'walk: for _turn in 0..watches.records.len() {
        if clause == END {
            return Ok(None);
        }
        let side = watches.side(clause, falsified);
        let next = watches.records.link(clause, side);
        match visit_clause(watches, trail, falsified, previous, clause)? {
            Visited::Stays => previous = clause,
            Visited::Moved => {}
            Visited::False => return Ok(Some(clause)),
        }
        clause = next;
    }
    Ok(None)
}

/// Looks at one clause that watches a literal which became false.
fn visit_clause(
    watches: &mut Watches,
    trail: &mut Trail,
    falsified: u32,
    previous: u32,
    clause: u32,
) -> Result<Visited, Spent>
    requires watches { AreWatches watches.old }
    requires goes { Goes (book_of watches.old) trail.old }
    requires visit { IsVisit trail.old falsified }
    requires clause { WatchingBelow watches.old.records watches.old.watched falsified clause }
    requires previous { previous < length watches.old.records ⊎ (previous ≡ end) }
    ensures goes { Goes (book_of watches.new) trail.new }
    ensures extended { Extends trail.old trail.new }
    ensures head { trail.new.head ≡ trail.old.head }
    ensures stays { result ≡ Ok Visited.Stays → StaysWatched watches.old watches.new trail.new falsified clause }
    ensures moved { result ≡ Ok Visited.Moved
        → MovesOn watches.old watches.new trail.old trail.new falsified previous clause }
    ensures conflict { result ≡ Ok Visited.False
        → (watches.new ≡ watches.old) × IsConflict (book_of watches.old) trail.new.steps clause }
    ensures spent { IsErr result → (watches.new ≡ watches.old) × IsStopped (book_of watches.old) trail.new }
{
    let side = watches.side(clause, falsified);
    let other = watches.records.other(clause, side);
    if trail.is_true(other) {
        return Ok(Visited::Stays);
    }
    if let Some(index) = replacement(watches, trail, clause) {
        watches.move_watch(previous, clause, falsified, index);
        return Ok(Visited::Moved);
    }
    if trail.is_false(other) {
        return Ok(Visited::False);
    }
    make_true(trail, other, clause)?;
    Ok(Visited::Stays)
}

/// A literal of the clause that isn't watched and isn't false.
fn replacement(watches: &Watches, trail: &Trail, clause: u32) -> Option<u32>
    requires store { IsStore watches.now }
    requires atoms { watches.now.atoms ≡ trail.now.atoms }
    requires clause { clause < length watches.now.records }
    ensures found { (index : ℕ) → result ≡ Some index → IsNotFalse watches.now trail.now.steps clause index }
    ensures none { result ≡ None → RestIsFalse watches.now trail.now.steps clause }
{
    let literals = watches.records.literals(clause);
    for index in 2..watches.records.cell(clause, 0) {
        if !trail.is_false(literals[index as usize]) {
            return Some(index);
        }
    }
    None
}
