//! One step of the search: propagate, and then learn from a conflict or decide.

ghost use Rattle.std.specs.Prelude.{◌≡◌, ◌≢◌, ◌↔◌, ℕ, ◌+◌, ◌-◌, ◌*◌, ◌/◌, ◌<◌, ◌≤◌, ◌^◌, List, length, true, Ok, Err, Some, None, IfOk, IfSome, OnOk, slice_index};
ghost use Rattle.std.specs.List.{Contains};
ghost use Rattle.asp_clauses.specs.Literal.{negated};
ghost use Rattle.asp_clauses.specs.Trail.{IsPlaced, IsUnassigned};
ghost use Rattle.asp_clauses.specs.Visits.{IsConflict};
ghost use Rattle.asp_clauses.specs.Choices.{IsFixpoint};
ghost use Rattle.asp_decide.specs.Total.{DeniesFirst};
ghost use Rattle.asp_search.specs.Solver.{IsReady, Stays, AreRefuted};
ghost use Rattle.asp_search.specs.Cores.{IsCore};
ghost use Rattle.asp_search.specs.Found.{IsNext, AreAllTrue, IsSatisfied, MovesCursor};

use crate::cores::core_of;
use crate::fault::SearchFault;
use crate::jump::handle_conflict;
use crate::outcome::Outcome;
use crate::solver::{Solver, is_true, opposite};
use asp_clauses::propagate;
use asp_decide::choose;
use asp_defs::List;
use std::alloc::Global;

/// Steps until there is an answer. Each step that gives none places a literal, so there are fewer than 3^n of them.
pub fn run(solver: &mut Solver, alloc: Global) -> Result<Outcome, SearchFault>
    requires { IsReady solver.old }
    ensures stays { Stays solver.old solver.new }
    ensures found { result ≡ Ok Outcome.Found → IsSatisfied solver.new }
    ensures core { (core : List ℕ) → result ≡ Ok (Outcome.Core core)
        → IsCore solver.old.book.clauses solver.old.assumed.items core }
    ensures spent { result ≡ Err SearchFault.Spent → solver.new.trail.count ≡ solver.new.trail.budget }
{
    loop {
        if let Some(outcome) = step(solver, alloc)? {
            return Ok(outcome);
        }
    }
}

/// One step; none where it gave no answer and placed a literal.
fn step(solver: &mut Solver, alloc: Global) -> Result<Option<Outcome>, SearchFault>
    requires { IsReady solver.old }
    ensures stays { Stays solver.old solver.new }
    ensures placed { result ≡ Ok None → solver.old.trail.count < solver.new.trail.count }
    ensures found { result ≡ Ok (Some Outcome.Found) → IsSatisfied solver.new }
    ensures core { (core : List ℕ) → result ≡ Ok (Some (Outcome.Core core))
        → IsCore solver.old.book.clauses solver.old.assumed.items core }
    ensures spent { result ≡ Err SearchFault.Spent → solver.new.trail.count ≡ solver.new.trail.budget }
{
    match propagate_all(solver)? {
        Some(conflict) => {
            if handle_conflict(solver, alloc, conflict)? {
                Ok(None)
            } else {
                Ok(Some(Outcome::Core(List::new(alloc))))
            }
        }
        None => decide(solver, alloc),
    }
}

/// Propagates until no clause is unit; answers a false clause, if there is one.
fn propagate_all(solver: &mut Solver) -> Result<Option<u32>, SearchFault>
    requires { IsReady solver.old }
    ensures stays { Stays solver.old solver.new }
    ensures count { solver.old.trail.count ≤ solver.new.trail.count }
    ensures fixpoint { result ≡ Ok None → IsFixpoint solver.new.book solver.new.trail.steps }
    ensures conflict { (clause : ℕ) → result ≡ Ok (Some clause) → IsConflict solver.new.book solver.new.trail.steps clause }
    ensures spent { result ≡ Err SearchFault.Spent → solver.new.trail.count ≡ solver.new.trail.budget }
{
    match propagate(&mut solver.book, &mut solver.trail) {
        Ok(conflict) => Ok(conflict),
        Err(_) => Err(SearchFault::Spent),
    }
}

/// Decides the next assumption, or else an atom; found where each has a value.
fn decide(solver: &mut Solver, alloc: Global) -> Result<Option<Outcome>, SearchFault>
    requires ready { IsReady solver.old }
    requires fixpoint { IsFixpoint solver.old.book solver.old.trail.steps }
    ensures stays { Stays solver.old solver.new }
    ensures placed { result ≡ Ok None → solver.old.trail.count < solver.new.trail.count }
    ensures found { result ≡ Ok (Some Outcome.Found) → IsSatisfied solver.new }
    ensures core { (core : List ℕ) → result ≡ Ok (Some (Outcome.Core core))
        → IsCore solver.old.book.clauses solver.old.assumed.items core }
    ensures spent { result ≡ Err SearchFault.Spent → solver.new.trail.count ≡ solver.new.trail.budget }
{
    if let Some(literal) = next_assumption(solver) {
        return assume(solver, alloc, literal);
    }
    match choose(
        &mut solver.heap,
        &mut solver.front,
        &solver.trail,
        solver.in_order,
    ) {
        Some(literal) => {
            place(solver, literal)?;
            Ok(None)
        }
        None => Ok(Some(Outcome::Found)),
    }
}

/// The first assumption that isn't true; the cursor moves there.
fn next_assumption(solver: &mut Solver) -> Option<u32>
    requires { IsReady solver.old }
    ensures moves { MovesCursor solver.old solver.new }
    ensures next { IfSome result (IsNext solver.new) }
    ensures all { result ≡ None → AreAllTrue solver.new }
    ensures past { result ≡ None → length solver.new.assumed.items ≤ solver.new.cursor }
{
    while solver.cursor < solver.assumed.len() {
        let literal = solver.assumed[solver.cursor];
        if !is_true(&solver.trail, literal) {
            return Some(literal);
        }
        solver.cursor += 1;
        solver.held = solver.trail.decisions();
    }
    None
}

/// Decides an assumption; where it is false, answers the core.
fn assume(solver: &mut Solver, alloc: Global, literal: u32) -> Result<Option<Outcome>, SearchFault>
    requires ready { IsReady solver.old }
    requires next { IsNext solver.old literal }
    ensures stays { Stays solver.old solver.new }
    ensures placed { result ≡ Ok None → solver.old.trail.count < solver.new.trail.count }
    ensures not_found { result ≢ Ok (Some Outcome.Found) }
    ensures core { (core : List ℕ) → result ≡ Ok (Some (Outcome.Core core))
        → IsCore solver.old.book.clauses solver.old.assumed.items core }
    ensures spent { result ≡ Err SearchFault.Spent → solver.new.trail.count ≡ solver.new.trail.budget }
{
    if is_true(&solver.trail, opposite(literal)) {
        return core_of_false(solver, alloc, literal);
    }
    match solver.trail.decide(literal) {
        Ok(()) => {
            solver.cursor += 1;
            solver.held = solver.trail.decisions();
            solver.decided = solver.decided.saturating_add(1);
            Ok(None)
        }
        Err(_) => Err(SearchFault::Spent),
    }
}

/// The core of an assumption that is false.
fn core_of_false(
    solver: &mut Solver,
    alloc: Global,
    literal: u32,
) -> Result<Option<Outcome>, SearchFault>
    requires ready { IsReady solver.old }
    requires next { IsNext solver.old literal }
    requires fails { IsPlaced solver.old.trail.steps (negated literal) }
    ensures stays { Stays solver.old solver.new }
    ensures not_placed { result ≢ Ok None }
    ensures not_found { result ≢ Ok (Some Outcome.Found) }
    ensures core { (core : List ℕ) → result ≡ Ok (Some (Outcome.Core core))
        → IsCore solver.old.book.clauses solver.old.assumed.items core }
    ensures not_spent { result ≢ Err SearchFault.Spent }
{
    let core = core_of(
        &mut solver.seen,
        &mut solver.heap,
        &solver.book,
        &solver.trail,
        alloc,
        literal,
    );
    solver.seen.clear();
    match core {
        Ok(core) => Ok(Some(Outcome::Core(List::from_vec(core)))),
        Err(_) => Err(SearchFault::NoMemory),
    }
}

/// Decides a literal once all assumptions are true.
fn place(solver: &mut Solver, literal: u32) -> Result<(), SearchFault>
    requires ready { IsReady solver.old }
    requires all { AreAllTrue solver.old }
    requires cursor { length solver.old.assumed.items ≤ solver.old.cursor }
    requires code { literal < 2 * solver.old.trail.atoms }
    requires unassigned { IsUnassigned solver.old.trail.steps literal }
    requires first { solver.old.in_order ≡ true → DeniesFirst solver.old.trail.steps literal }
    ensures stays { Stays solver.old solver.new }
    ensures placed { OnOk result (solver.new.trail.count ≡ solver.old.trail.count + 1) }
    ensures spent { result ≡ Err SearchFault.Spent → solver.new.trail.count ≡ solver.new.trail.budget }
{
    match solver.trail.decide(literal) {
        Ok(()) => {
            solver.decided = solver.decided.saturating_add(1);
            Ok(())
        }
        Err(_) => {
            // It was taken from the heap.
            solver.heap.insert(literal / 2);
            Err(SearchFault::Spent)
        }
    }
}
