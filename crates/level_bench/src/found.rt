//! The moves of a level that are found.
ghost use Rattle.std.specs.Prelude.{◌≡◌, ◌≢◌};
ghost use Rattle.asp_defs.specs.Games.{base as base_of};
ghost use Rattle.asp_game.specs.State.{Unasked};

use asked_moves::asked::{put, step};
use asked_moves::questions::base;
use asked_moves::trials::Trial;
use asp_answers::Answers;
use asp_defs::Game;
use std::alloc::Global;

/// How many moves are to be found, and what was found.
#[derive(Clone, Copy)]
pub struct Finding {
    pub wanted: u32,
    pub moves: usize,
    /// Whether the level has no other moves.
    pub are_all: bool,
    /// How many nogoods were made.
    pub nogoods: usize,
}

/// Finds moves of the question, each blocked with all its literals, and tells whether these are all; none where a fault comes.
fn find_moves(
    alloc: Global,
    answers: &mut Answers,
    base: &[u32],
    wanted: u32,
    moves: &mut Vec<u32>,
) -> Option<bool>
    requires base { base.now ≡ base_of answers.old.moves.game answers.old.moves.level }
    requires asked { answers.old.moves.last ≢ Unasked }
{
    for _ in 0..wanted {
        let end = step(alloc, answers, base, moves)?;
        if end.is_some() {
            return Some(true);
        }
    }
    Some(false)
}

impl Trial for Finding {
    fn run(
        &mut self,
        alloc: Global,
        answers: &mut Answers,
        game: &Game,
        level: u32,
    ) -> Option<bool> {
        put(alloc, answers, game, level, 0, &[])?;
        let mut moves = Vec::new(alloc);
        self.are_all = find_moves(alloc, answers, base(game, level), self.wanted, &mut moves)?;
        self.moves = moves.len();
        self.nogoods = answers.nogoods().len();
        Some(true)
    }
}
