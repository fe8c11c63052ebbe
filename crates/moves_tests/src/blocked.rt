//! Cubes that are blocked until the next question.

ghost use Rattle.std.specs.Prelude.{◌≡◌, ◌≢◌};
ghost use Rattle.asp_defs.specs.Games.{base as base_of};
ghost use Rattle.asp_game.specs.State.{Unasked};

use crate::wanted::is_listed;
use asked_moves::asked::{all_moves, put};
use asked_moves::questions::base;
use asked_moves::trials::{Trial, try_text};
use asp_answers::Answers;
use asp_defs::Game;
use asp_game::{Moves, Step};
use bases_tests::rows::expect;
use std::alloc::Global;
use std::test::Fail;

/// Whether the question has no move once the empty cube is blocked behind its first one.
fn blocks_all(alloc: Global, answers: &mut Answers, base: &[u32]) -> Option<bool>
    requires base { base.now ≡ base_of answers.old.moves.game answers.old.moves.level }
    requires asked { answers.old.moves.last ≢ Unasked }
{
    let Ok(Step::Found(_)) = answers.next(alloc) else {
        return None;
    };
    answers.block(alloc, &[]).ok()?;
    let rest = all_moves(alloc, answers, base)?;
    Some(rest.moves.is_empty())
}

/// All four moves of two free atoms come twice, and none once the empty cube is blocked.
#[derive(Drop)]
struct Forgotten;

impl Trial for Forgotten {
    fn run(
        &mut self,
        alloc: Global,
        answers: &mut Answers,
        game: &Game,
        level: u32,
    ) -> Option<bool> {
        let first = is_listed(alloc, answers, game, level, 0, &[], &[0, 1, 2, 3], (0, 0))?;
        let second = is_listed(alloc, answers, game, level, 0, &[], &[0, 1, 2, 3], (0, 0))?;
        put(alloc, answers, game, level, 0, &[])?;
        let none = blocks_all(alloc, answers, base(game, level))?;
        Some(first && second && none)
    }
}

/// A blocked cube is found again after the next question, and an empty cube blocks all.
#[test]
fn forgets_blocked_cubes(rt: HostRuntime) -> Result<(), Fail> {
    let text = "%@exists {a}. {b}.";
    expect(
        try_text(rt.alloc(), text, 1, 1000, &mut Forgotten) == Some(true),
        text,
    )
}
