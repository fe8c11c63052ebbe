//! Who searches the moves of a level.
ghost use Rattle.std.specs.Prelude.{◌≡◌, ◌+◌, ◌≤◌, ℕ, IfOk};
ghost use Rattle.asp_defs.specs.Games.{level_count, IsValid};
ghost use Rattle.asp_answers.specs.AnswersState.{unasked};
ghost use Rattle.asp_team.specs.States.{first_levels};

use asp_answers::Answers;
use asp_defs::{Game, NoMemory};
use std::alloc::Global;
use std::marker::Model;
use std::sync::Arc;

/// A level of a game, by its moves, which are boxed since layers are moved into one another.
#[derive(Drop)]
pub(crate) struct Level {
    pub game: Arc<Game>,
    pub number: u32,
    pub moves: Box<Answers>,
}

impl Model for Level {
    ghost use Rattle.std.specs.Prelude.{◌≡◌};
    ghost use Rattle.asp_game.specs.State.{MovesState};

    ghost Value = { MovesState };

    ghost view = { λ level. level.moves.value.moves };

    ghost invariant = { λ level. (level.game.value ≡ level.moves.value.moves.game) × (level.number ≡ level.moves.value.moves.level) };
}

impl Level {
    /// A level of a game, before its first move is asked for. `NoMemory`: memory was refused.
    fn new(alloc: Global, game: &Arc<Game>, number: u32, budget: u64) -> Result<Level, NoMemory>
        requires valid { IsValid game.now.value }
        requires first { 1 ≤ number }
        requires last { number ≤ level_count game.now.value }
        ensures { IfOk result (λ level. level ≡ unasked game.now.value number budget) }
    {
        let moves = Answers::new(alloc, Arc::try_clone(game)?, number, budget)?;
        Ok(Level {
            game: Arc::try_clone(game)?,
            number,
            moves: Box::new(alloc, moves)?,
        })
    }
}

/// All levels of a game, the last one last, before the first move is asked for. `NoMemory`: memory was refused.
pub(crate) fn levels_of(
    alloc: Global,
    game: &Arc<Game>,
    budget: u64,
) -> Result<Vec<Level>, NoMemory>
    requires valid { IsValid game.now.value }
    ensures { IfOk result (λ levels. levels.items ≡ first_levels game.now.value budget (level_count game.now.value)) }
{
    let mut levels = Vec::new(alloc);
    for place in 0..game.quants.len() {
        levels.push(Level::new(alloc, game, place as u32 + 1, budget)?)?;
    }
    Ok(levels)
}
