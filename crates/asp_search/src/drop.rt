//! Clauses are dropped: loose ones where a search begins again, and about half of the learned ones, the worse ones,
//! at growing intervals.

ghost use Rattle.std.specs.Prelude.{◌≡◌, ◌+◌, ◌*◌, ◌/◌, ◌<◌, ◌≤◌, ◌^◌, [], length, map, IfOk};
ghost use Rattle.asp_clauses.specs.Trail.{TrailState};
ghost use Rattle.asp_clauses.specs.Book.{Goes};
ghost use Rattle.asp_clauses.specs.Kept.{kept, is_firm};
ghost use Rattle.asp_search.specs.Learned.{firm_of};
ghost use Rattle.asp_search.specs.Solver.{IsReady, Stays};

use crate::NoMemory;
use crate::activity::ClauseActivity;
use crate::solver::Solver;
use asp_clauses::{Book, Kind, Trail};
use std::alloc::Global;

/// A learned clause of so many decision levels or fewer is never dropped.
const GOOD_LEVELS: u16 = 2;

/// Drops the loose clauses, of which none is a reason since no literal is placed.
pub fn drop_loose(book: &mut Book, trail: &Trail)
    requires goes { Goes book.old trail.now }
    requires empty { trail.now.steps ≡ [] }
    ensures clauses { book.new.clauses ≡ firm_of book.old }
    ensures kinds { book.new.kinds ≡ kept (map is_firm book.old.kinds) book.old.kinds }
    ensures goes { Goes book.new trail.now }
{
    book.settle(trail);
}

/// Drops learned clauses if it is time to, but for reasons of placed literals. Out of memory none is dropped.
pub fn drop_learned(solver: &mut Solver, alloc: Global)
    requires ready { IsReady solver.old }
    ensures stays { Stays solver.old solver.new }
    ensures count { solver.new.trail.count ≡ solver.old.trail.count }
{
    if !solver.activity.is_due() {
        return;
    }
    let mut marks = match choose_clauses(&solver.book, &solver.activity, alloc) {
        Ok(marks) => marks,
        Err(_) => return,
    };
    solver.book.remove(&mut solver.trail, marks.as_mut_slice());
    solver.activity.compact(marks.as_slice());
}

/// Which clauses are to stay.
fn choose_clauses(
    book: &Book,
    activity: &ClauseActivity,
    alloc: Global,
) -> Result<Vec<bool>, NoMemory>
    ensures { IfOk result (λ marks. length marks.items ≡ length book.now.clauses) }
{
    let limit = middle_rank(book, activity, alloc)?;
    let mut marks = vec![in alloc; true; book.len() as usize]?;
    for clause in 0..book.len() {
        let kind = book.kind(clause);
        marks[clause as usize] = !is_droppable(kind) || activity.rank(clause, kind.score) < limit;
    }
    Ok(marks)
}

/// The rank of the clause in the middle of those that may be dropped; 0 where there is none.
fn middle_rank(book: &Book, activity: &ClauseActivity, alloc: Global) -> Result<u64, NoMemory> {
    let mut ranks = Vec::new(alloc);
    for clause in 0..book.len() {
        let kind = book.kind(clause);
        if is_droppable(kind) {
            ranks.push(activity.rank(clause, kind.score))?;
        }
    }
    ranks.sort_unstable();
    let middle = ranks.len() / 2;
    match ranks.get(middle) {
        Some(rank) => Ok(*rank),
        None => Ok(0),
    }
}

/// Whether the clause is learned and of several decision levels.
fn is_droppable(kind: Kind) -> bool {
    kind.learned && kind.score > GOOD_LEVELS
}
