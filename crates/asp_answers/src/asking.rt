//! What a refused cube leaves.
ghost use Rattle.std.specs.Prelude.{◌≡◌, ◌≢◌, true, OnOk, OnErr};
ghost use Rattle.asp_defs.specs.declared.ground.Lit.{Lit};
ghost use Rattle.asp_defs.specs.Interpretations.{holds};
ghost use Rattle.asp_defs.specs.Lists.{IsIn};
ghost use Rattle.asp_game.specs.State.{with_blocked, with_kept, without_memory, without_cube};
ghost use Rattle.asp_answers.specs.AnswersState.{moves_at};
ghost use Rattle.asp_completion.specs.Levels.{upper, IsLevel};
ghost use Rattle.asp_answers.specs.Recorded.{Learns};
ghost use Rattle.asp_answers.specs.Works.{IsAsked, IsSettled, refused_by};
ghost use Rattle.asp_answers.specs.declared.work.Answered.TheVariants as answered;

use crate::cubes::{block_cube, keep_cube};
use crate::work::{Answered, Work};
use asp_completion::Level;
use asp_defs::{Lit, NoMemory};
use std::alloc::Global;

/// Blocks a cube that has the last move. Where memory was refused, that is the last answer.
pub fn block_work(
    alloc: Global,
    level: &Level,
    budget: u64,
    work: &mut Work,
    cube: &[Lit],
) -> Result<(), NoMemory>
    requires ready { IsLevel level.now }
    requires asked { IsAsked level.now budget work.old }
    requires found { work.old.last ≡ answered.Found }
    requires inside { (l : Lit) → IsIn l cube.now → holds (upper level.now) l.atom ≡ true }
    ensures settled { IsSettled level.now budget work.new }
    ensures blocked { OnOk result
        (moves_at level.now budget 0 0 work.new ≡ with_blocked (moves_at level.now budget 0 0 work.old) cube.now) }
    ensures no_memory { OnErr result
        (moves_at level.now budget 0 0 work.new ≡ without_memory (moves_at level.now budget 0 0 work.old)) }
    ensures placed { work.new.search.count ≡ work.old.search.count }
    ensures learned { Learns level.now work.old work.new }
{
    match block_cube(alloc, level, budget, work, cube) {
        Ok(()) => Ok(()),
        Err(fault) => {
            work.last = Answered::NoMemory;
            Err(fault)
        }
    }
}

/// The last answer, once memory was refused for a cube that is to be left out of every question.
fn refused(last: Answered) -> Answered
    ensures { result ≡ refused_by last }
{
    match last {
        Answered::Unasked => Answered::Unasked,
        Answered::Nothing
        | Answered::Found
        | Answered::Core
        | Answered::Spent(_)
        | Answered::NoMemory => Answered::NoMemory,
    }
}

/// Leaves a cube out of every question. Where memory was refused, that is the last answer, if there was a question.
pub fn keep_work(
    alloc: Global,
    level: &Level,
    budget: u64,
    work: &mut Work,
    cube: &[Lit],
) -> Result<(), NoMemory>
    requires ready { IsLevel level.now }
    requires settled { IsSettled level.now budget work.old }
    requires inside { (l : Lit) → IsIn l cube.now → holds (upper level.now) l.atom ≡ true }
    ensures settled { IsSettled level.now budget work.new }
    ensures kept { OnOk result
        (moves_at level.now budget 0 0 work.new ≡ with_kept (moves_at level.now budget 0 0 work.old) cube.now) }
    ensures no_memory { OnErr result
        (moves_at level.now budget 0 0 work.new ≡ without_cube (moves_at level.now budget 0 0 work.old)) }
    ensures placed { work.new.search.count ≡ work.old.search.count }
    ensures learned { Learns level.now work.old work.new }
{
    match keep_cube(alloc, level, budget, work, cube) {
        Ok(()) => Ok(()),
        Err(fault) => {
            work.last = refused(work.last);
            Err(fault)
        }
    }
}
