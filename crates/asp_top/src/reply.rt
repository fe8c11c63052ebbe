//! What a run has to say of the bytes of its source.
ghost use Rattle.std.specs.Prelude.{◌≡◌, ◌≤◌, ◌+◌, ℕ, List, Some, IfOk, OnOk, IsErrOf, drop};
ghost use Rattle.asp_defs.specs.Runs.{most_read};
ghost use Rattle.asp_defs.specs.Sizes.{IsAccepted};
ghost use Rattle.asp_io.specs.Causes.{Rose};
ghost use Rattle.asp_top.specs.Commands.{IsWithin};
ghost use Rattle.asp_top.specs.Replies.{IsRight};
ghost use Rattle.asp_top.specs.Solved.{IsMeasured};

use crate::accept::{Accepted, accept};
use crate::answer::Answer;
use crate::refusal::Refusal;
use crate::solve::solve;
use crate::words::Command;
use asp_defs::Which;
use asp_io::{ReadFault, Source, read_all};
use std::alloc::{AllocError, Global};

/// What the command has to say of the bytes that the source has left.
///
/// # Errors
///
/// `Failed` where the source failed, and `NoMemory` where memory ran out.
pub fn answer<S: Source>(
    alloc: Global,
    command: Command,
    source: &mut S,
) -> Result<Answer, ReadFault>
    requires { IsWithin command }
    ensures right { IfOk result (λ answer. (bytes : List ℕ) → S.left source.old ≡ Some bytes
        → IsRight command bytes answer) }
    ensures right_of_some { IfOk result (λ answer. (bytes : List ℕ) × IsRight command bytes answer) }
    ensures all_read { OnOk result ((bytes : List ℕ) → S.left source.old ≡ Some bytes
        → S.left source.new ≡ Some (drop most_read bytes)) }
    ensures later { S.faults source.old ≤ S.faults source.new }
    ensures kept { OnOk result (S.faults source.new ≡ S.faults source.old) }
    ensures failed { IsErrOf result ReadFault.Failed → Rose (S.faults source.old) (S.faults source.new) }
    ensures memory { IsErrOf result ReadFault.NoMemory → S.faults source.new ≡ S.faults source.old }
{
    let bytes = read_all(alloc, source, Which::Bytes.limit() + 1)?;
    Ok(reply(alloc, command, bytes)?)
}

/// What the command has to say of the bytes.
fn reply(alloc: Global, command: Command, bytes: Vec<u8>) -> Result<Answer, AllocError>
    requires { IsWithin command }
    ensures { IfOk result (IsRight command bytes.items) }
{
    match accept(alloc, bytes) {
        Ok(accepted) => serve(alloc, command, accepted),
        Err(Refusal::Text(line)) => Ok(Answer::Refused(line)),
        Err(Refusal::NoMemory) => Err(AllocError),
    }
}

/// What the command has to say of an accepted text's program.
fn serve(alloc: Global, command: Command, accepted: Accepted) -> Result<Answer, AllocError>
    requires within { IsWithin command }
    requires measured { IsMeasured accepted }
    ensures { IfOk result (λ answer. (bytes : List ℕ) → IsAccepted bytes accepted.checked
        → IsRight command bytes answer) }
{
    match command {
        Command::Check => Ok(Answer::Accepted(accepted.checked)),
        Command::Solve(tuning) => solve(alloc, accepted, tuning),
    }
}
