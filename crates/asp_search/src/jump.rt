//! From a conflict to the next step: the learned clause is added, and the trail goes back to where it implies a
//! literal.

ghost use Rattle.std.specs.Prelude.{◌≡◌, ◌↔◌, ℕ, ◌+◌, ◌*◌, ◌/◌, ◌<◌, ◌≤◌, ◌^◌, length, false, true, Ok, Err, IfOk, OnOk};
ghost use Rattle.asp_clauses.specs.Trail.{IsFalse, StandsAt, clause_at, level_at};
ghost use Rattle.asp_clauses.specs.Visits.{IsConflict};
ghost use Rattle.asp_search.specs.Analysis.{IsLearned, IsTopLevel};
ghost use Rattle.asp_search.specs.Solver.{IsReady, IsRewound, IsTakenBack, Stays, AreRefuted};
ghost use Rattle.asp_search.specs.Learned.{base_of, IsGrounded};
ghost use Rattle.asp_search.specs.Deriving.{Derives, Keeps};

use crate::NoMemory;
use crate::analyze::{conflict_level, learn, resolve_conflict};
use crate::drop::drop_learned;
use crate::fault::SearchFault;
use crate::ground::look_at_ground;
use crate::minimize::mark_implied;
use crate::solver::{Solver, opposite};
use asp_clauses::Trail;
use asp_decide::DecisionHeap;
use std::alloc::Global;

/// Learns from a conflict and goes back; false where no assignment satisfies the clauses.
pub fn handle_conflict(
    solver: &mut Solver,
    alloc: Global,
    conflict: u32,
) -> Result<bool, SearchFault>
    requires ready { IsReady solver.old }
    requires conflict { IsConflict solver.old.book solver.old.trail.steps conflict }
    ensures stays { Stays solver.old solver.new }
    ensures refuted { result ≡ Ok false → AreRefuted solver.old.book.clauses }
    ensures placed { result ≡ Ok true → solver.new.trail.count ≡ solver.old.trail.count + 1 }
    ensures spent { result ≡ Err SearchFault.Spent → solver.new.trail.count ≡ solver.new.trail.budget }
{
    let level = conflict_level(&solver.book, &solver.trail, conflict);
    if level == 0 {
        return Ok(false);
    }
    look_at_ground(
        &solver.book,
        &solver.trail,
        &mut solver.looked,
        &mut solver.ground_loose,
    );
    learn_from(solver, alloc, conflict, level)?;
    Ok(true)
}

/// Learns a clause from a conflict, and goes back to where it implies a literal.
fn learn_from(
    solver: &mut Solver,
    alloc: Global,
    conflict: u32,
    level: u32,
) -> Result<(), SearchFault>
    requires ready { IsReady solver.old }
    requires conflict { IsConflict solver.old.book solver.old.trail.steps conflict }
    requires top { IsTopLevel solver.old.trail.steps (clause_at solver.old.book.clauses conflict) level }
    requires decided { 0 < level }
    requires grounded { IsGrounded (base_of solver.old.book solver.old.ground_loose) solver.old.book.clauses solver.old.trail.steps }
    ensures stays { Stays solver.old solver.new }
    ensures placed { OnOk result (solver.new.trail.count ≡ solver.old.trail.count + 1) }
    ensures spent { result ≡ Err SearchFault.Spent → solver.new.trail.count ≡ solver.new.trail.budget }
{
    let derived = derive(solver, conflict, level);
    solver.seen.clear();
    match derived {
        Ok((place, target)) => {
            let level = jump_level(solver, place, target);
            go_back(solver, alloc, place, level)?;
            drop_learned(solver, alloc);
            Ok(())
        }
        Err(_) => Err(SearchFault::NoMemory),
    }
}

/// Writes the clause that the conflict teaches; answers the place of the one literal of its level, and the level to
/// which to go back.
fn derive(solver: &mut Solver, conflict: u32, level: u32) -> Result<(u32, u32), NoMemory>
    requires ready { IsReady solver.old }
    requires conflict { IsConflict solver.old.book solver.old.trail.steps conflict }
    requires top { IsTopLevel solver.old.trail.steps (clause_at solver.old.book.clauses conflict) level }
    requires decided { 0 < level }
    requires grounded { IsGrounded (base_of solver.old.book solver.old.ground_loose) solver.old.book.clauses solver.old.trail.steps }
    ensures keeps { Keeps solver.old solver.new }
    ensures derives { IfOk result (λ r. Derives solver.new r.0 r.1) }
{
    solver.loose = solver.ground_loose;
    let place = resolve_conflict(
        &mut solver.seen,
        &mut solver.heap,
        &mut solver.activity,
        &mut solver.loose,
        &solver.book,
        &solver.trail,
        conflict,
        level,
    )?;
    let loose = solver.loose;
    mark_implied(&mut solver.seen, &solver.book, &solver.trail, level, loose)?;
    let target = learn(
        &mut solver.learned,
        &mut solver.levels,
        &solver.seen,
        &solver.book,
        &solver.trail,
        place,
        level,
        loose,
    )?;
    Ok((place, target))
}

/// The level to go back to: the lowest at which the clause implies its literal, or a higher one where that keeps
/// assumptions decided which would else be decided again.
fn jump_level(solver: &Solver, place: u32, target: u32) -> u32
    requires ready { IsReady solver.now }
    requires derives { Derives solver.now place target }
    ensures { Derives solver.now place result }
{
    let level = solver.trail.level(solver.trail.at(place) / 2);
    if solver.held <= target {
        return target;
    }
    if solver.held < level {
        return solver.held;
    }
    level - 1
}

/// Adds the learned clause, and goes back to where it implies the negation of the literal at the place.
fn go_back(solver: &mut Solver, alloc: Global, place: u32, target: u32) -> Result<(), SearchFault>
    requires ready { IsReady solver.old }
    requires derives { Derives solver.old place target }
    ensures stays { Stays solver.old solver.new }
    ensures placed { OnOk result (solver.new.trail.count ≡ solver.old.trail.count + 1) }
    ensures spent { result ≡ Err SearchFault.Spent → solver.new.trail.count ≡ solver.new.trail.budget }
{
    let literal = opposite(solver.trail.at(place));
    let score = solver.levels.len();
    let added = solver
        .book
        .add_learned(alloc, solver.learned.as_slice(), solver.loose, score);
    let number = match added {
        Ok(number) => number,
        Err(_) => return Err(SearchFault::NoMemory),
    };
    unwind(
        &mut solver.heap,
        &mut solver.front,
        &solver.trail,
        target.saturating_add(1),
    );
    match solver.trail.jump(&solver.book, target, literal, number) {
        Ok(()) => {
            rewind(&mut solver.cursor, &mut solver.held, target);
            solver.heap.decay();
            // A clause that isn't listed counts as one that was never active.
            let _ = solver.activity.list(number);
            Ok(())
        }
        Err(_) => Err(SearchFault::Spent),
    }
}

/// Has the assumptions that the level doesn't keep looked at again.
fn rewind(cursor: &mut usize, held: &mut u32, level: u32)
    ensures { IsRewound cursor.old held.old level cursor.new held.new }
{
    if *held > level {
        *cursor = (*cursor).min(level as usize);
        *held = level;
    }
}

/// Keeps the phases of the literals that aren't of the first levels, as many as `levels`, lets their atoms wait again, and
/// takes the front back to the least of these.
pub fn unwind(heap: &mut DecisionHeap, front: &mut u32, trail: &Trail, levels: u32)
    requires { heap.old.atoms ≡ trail.now.atoms }
    ensures heap { heap.new.atoms ≡ heap.old.atoms }
    ensures front { IsTakenBack trail.now.steps levels front.old front.new }
{
    let mut end = trail.len();
    while end > 0 {
        end -= 1;
        let literal = trail.at(end);
        if trail.level(literal / 2) < levels {
            return;
        }
        heap.keep_phase(literal / 2, literal % 2 == 1);
        heap.insert(literal / 2);
        *front = (*front).min(literal / 2);
    }
}
