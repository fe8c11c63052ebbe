//! Random levels with bounds: all moves after each outer move, and the core tried at every outer move that has it.
ghost use Rattle.std.specs.Prelude.{◌≤◌};

use crate::meaning::{is_move, mask};
use crate::written::{Series, put_levels};
use asked_moves::asked::{Listed, ask};
use asked_moves::questions::base;
use asked_moves::trials::{Trial, try_text};
use asp_answers::Answers;
use asp_defs::Game;
use bases_tests::rows::expect;
use std::alloc::Global;
use std::test::Fail;

/// How many sets of six atoms there are.
const SETS: u32 = 64;

/// Whether the moves of a level after an outer move are those of the definition, and none is left after one with the core.
fn is_right(game: &Game, level: u32, lower: u32, upper: u32, outer: u32, found: &Listed) -> bool
    requires { 1 ≤ level }
{
    let mut next = 0usize;
    let moves = found.moves.as_slice();
    let (held, out) = found.core;
    for set in 0..SETS {
        if set & !upper == 0 && is_move(game, level as usize - 1, lower, set) {
            let is_after = set & lower == outer;
            if is_after && moves.get(next) != Some(&set) {
                return false;
            }
            if is_after {
                next = next.saturating_add(1);
            }
            if !is_after && set & held == held && set & out == 0 {
                return false;
            }
        }
    }
    next == moves.len() && outer & held == held && outer & out == 0
}

/// The outer moves, some of them twice.
const OUTERS: [u32; 6] = [0, 1, 2, 3, 1, 0];

/// The moves after each outer move, and the core.
#[derive(Drop)]
struct Defined;

impl Trial for Defined {
    fn run(
        &mut self,
        alloc: Global,
        answers: &mut Answers,
        game: &Game,
        level: u32,
    ) -> Option<bool> {
        let lower = mask(base(game, level - 1));
        let upper = mask(base(game, level));
        for outer in &OUTERS {
            let found = ask(alloc, answers, game, level, *outer, &[])?;
            if !is_right(game, level, lower, upper, *outer, &found) {
                return Some(false);
            }
        }
        Some(true)
    }
}

/// Draws the next level.
fn run_next(alloc: Global, series: &mut Series) -> Result<(), Fail> {
    let mut text = String::new(alloc);
    put_levels(&mut text, series)?;
    expect(
        try_text(alloc, text.as_str(), 2, 1_000_000, &mut Defined) == Some(true),
        text.as_str(),
    )
}

#[test]
fn agrees_with_the_definitions(rt: HostRuntime) -> Result<(), Fail> {
    let mut series = Series { state: 1 };
    for _ in 0..60 {
        run_next(rt.alloc(), &mut series)?;
    }
    Ok(())
}
