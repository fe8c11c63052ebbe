//! A clause as callers give it: repeated literals are dropped, and a clause with both literals of an atom adds nothing.

ghost use Rattle.std.specs.Prelude.{◌≡◌, ℕ, ◌+◌, ◌*◌, ◌<◌, ◌≤◌, ◌^◌, [], ◌∷◌, ◌++◌, length, true, false, IsTrue, IfOk, OnOk, OnErr, slice_index};
ghost use Rattle.std.specs.List.{Contains};
ghost use Rattle.asp_clauses.specs.Literal.{negated};
ghost use Rattle.asp_clauses.specs.Trail.{TrailState};
ghost use Rattle.asp_clauses.specs.Book.{Goes, IsClause};
ghost use Rattle.asp_search.specs.Learned.{firm_of, AddsFirm};
ghost use Rattle.asp_search.specs.Meaning.{AddsClause};
ghost use Rattle.asp_search.specs.Seen.{AreCodes};
ghost use Rattle.asp_search.specs.Solver.{IsReady};
ghost use Rattle.asp_search.specs.Clause.{KeepsAll, KeepsBook, IsTautology, Collects};

use crate::NoMemory;
use crate::seen::Seen;
use crate::solver::{Solver, opposite};
use asp_clauses::Book;
use std::alloc::Global;

/// Adds a clause to the book.
pub fn add_clause(
    solver: &mut Solver,
    alloc: Global,
    clause: &[u32],
    loose: bool,
) -> Result<(), NoMemory>
    requires ready { IsReady solver.old }
    requires codes { AreCodes (2 * solver.old.trail.atoms) clause.now }
    ensures keeps { KeepsAll solver.old solver.new }
    ensures added { OnOk result (AddsClause solver.old.book.clauses solver.new.book.clauses clause.now) }
    ensures firm { OnOk result (AddsFirm loose (firm_of solver.old.book) (firm_of solver.new.book) clause.now) }
    ensures unchanged { OnErr result (solver.new.book ≡ solver.old.book) }
{
    let added = insert_clause(solver, alloc, clause, loose);
    solver.seen.clear();
    added
}

/// Adds the clause's literals, each once, unless both of an atom are among them. Marks are left to be taken back.
fn insert_clause(
    solver: &mut Solver,
    alloc: Global,
    clause: &[u32],
    loose: bool,
) -> Result<(), NoMemory>
    requires ready { IsReady solver.old }
    requires codes { AreCodes (2 * solver.old.trail.atoms) clause.now }
    ensures keeps { KeepsBook solver.old solver.new }
    ensures added { OnOk result (AddsClause solver.old.book.clauses solver.new.book.clauses clause.now) }
    ensures firm { OnOk result (AddsFirm loose (firm_of solver.old.book) (firm_of solver.new.book) clause.now) }
    ensures unchanged { OnErr result (solver.new.book ≡ solver.old.book) }
{
    if collect(&mut solver.seen, clause)? {
        return Ok(());
    }
    match add_to(&mut solver.book, alloc, solver.seen.as_slice(), loose) {
        Ok(()) => Ok(()),
        Err(fault) => Err(fault),
    }
}

/// Adds the clause to the book, as a loose or a firm one.
fn add_to(book: &mut Book, alloc: Global, clause: &[u32], loose: bool) -> Result<(), NoMemory>
    requires { IsClause book.old.atoms clause.now }
    ensures added { OnOk result (book.new.clauses ≡ book.old.clauses ++ clause.now ∷ []) }
    ensures kinds { OnOk result (book.new.kinds ≡ book.old.kinds ++ (record { learned = false; loose = loose; score = 0 }) ∷ []) }
    ensures unchanged { OnErr result (book.new ≡ book.old) }
    ensures goes { (trail : TrailState) → Goes book.old trail → Goes book.new trail }
{
    if loose {
        book.add_loose(alloc, clause)?;
        return Ok(());
    }
    book.add(alloc, clause)?;
    Ok(())
}

/// Marks the literals of the clause; true where both literals of an atom stand in it.
fn collect(seen: &mut Seen, clause: &[u32]) -> Result<bool, NoMemory>
    requires codes { AreCodes seen.old.codes clause.now }
    requires even { (code : ℕ) → code < seen.old.codes → negated code < seen.old.codes }
    requires unmarked { seen.old.marked ≡ [] }
    ensures codes { seen.new.codes ≡ seen.old.codes }
    ensures collected { IfOk result (λ tautology. IsTrue tautology → IsTautology clause.now) }
    ensures marked { IfOk result (λ tautology. tautology ≡ false → Collects clause.now seen.new.marked) }
{
    for literal in clause {
        if seen.contains(opposite(*literal)) {
            return Ok(true);
        }
        if !seen.contains(*literal) {
            seen.insert(*literal)?;
        }
    }
    Ok(false)
}
