//! Whether a program is coherent: its game is made, and one worker for each level decides it.
ghost use Rattle.std.specs.Prelude.{◌≡◌, ◌≤◌, false, None, IfOk, length, replicate};
ghost use Rattle.asp_defs.specs.Games.{game_of, IsValid};
ghost use Rattle.asp_defs.specs.Sizes.{game_too_large};
ghost use Rattle.asp_atoms.specs.Vocabularies.{vocabulary_of};
ghost use Rattle.asp_store.specs.Stores.{most_cells};
ghost use Rattle.asp_team.specs.States.{IsNew};
ghost use Rattle.asp_top.specs.Solved.{IsMeasured, IsDecided, IsSolved};

use crate::accept::Accepted;
use crate::answer::Answer;
use crate::words::Tuning;
use asp_atoms::{Vocabulary, bases_over};
use asp_bits::Bits;
use asp_check::Checked;
use asp_defs::{Game, Give, NoMemory};
use asp_ground::instantiate;
use asp_team::{Single, node_single};
use std::alloc::{AllocError, Global};
use std::sync::Arc;

/// The game of a program whose game keeps the limits: its bases, and all instances of its rules.
///
/// # Errors
///
/// Memory ran out.
fn game(alloc: Global, checked: &Checked, vocabulary: &Vocabulary) -> Result<Game, NoMemory>
    requires known { vocabulary.now ≡ vocabulary_of checked.now }
    requires small { game_too_large checked.now ≡ None }
    ensures game { IfOk result (λ game. game ≡ game_of checked.now) }
    ensures valid { IfOk result IsValid }
{
    // What makes the game valid: the program passes the checks.
    let _program = checked.program();
    let bases = bases_over(alloc, checked, vocabulary)?;
    instantiate(alloc, checked, bases, vocabulary)
}

/// The empty outer move, before which there is no level.
fn outermost(alloc: Global, game: &Game) -> Result<Bits, NoMemory>
    requires { IsValid game.now }
    ensures { IfOk result (λ set. set ≡ replicate (length game.now.bases.atoms) false) }
{
    Bits::new(alloc, game.bases.atoms.len() as u32)
}

/// Asks for the verdict of the game: that on the empty outer move of the first level.
///
/// # Errors
///
/// Memory ran out.
fn ask(alloc: Global, team: Single, outer: &Bits) -> Result<Answer, AllocError>
    requires new { IsNew team.game team.budget team.allowed team }
    requires valid { IsValid team.game }
    requires outer { outer.now ≡ replicate (length team.game.bases.atoms) false }
    ensures { IfOk result (IsDecided team.game team.budget team.allowed) }
{
    let mut team = team;
    match node_single(alloc, &mut team, 1, outer) {
        Ok(at) => {
            let verdict = team.store().entry(at).verdict;
            Ok(Answer::Verdict(verdict, team))
        }
        Err(Give::Spent(unknown)) => Ok(Answer::Unknown(unknown, team)),
        Err(Give::NoMemory) => Err(AllocError),
    }
}

/// Whether the program is coherent, or why that stays open.
///
/// # Errors
///
/// Memory ran out.
pub fn solve(alloc: Global, accepted: Accepted, tuning: Tuning) -> Result<Answer, AllocError>
    requires measured { IsMeasured accepted }
    requires within { tuning.cells ≤ most_cells }
    ensures { IfOk result (IsSolved tuning accepted.checked) }
{
    let Accepted {
        checked,
        vocabulary,
    } = accepted;
    let game = game(alloc, &checked, &vocabulary)?;
    let outer = outermost(alloc, &game)?;
    let shared = Arc::new(alloc, game)?;
    let team = Single::new(alloc, shared, tuning.budget, tuning.cells)?;
    ask(alloc, team, &outer)
}
