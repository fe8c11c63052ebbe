//! The cubes of a move of the last level.
ghost use Rattle.std.specs.Prelude.{◌≡◌, ◌+◌, ◌-◌, ◌≤◌, IsTrue, length};
ghost use Rattle.asp_bits.specs.Places.{true_places};
ghost use Rattle.asp_defs.specs.Lists.{IsIn};
ghost use Rattle.asp_defs.specs.Games.{IsValid, level_count, base, is_subset};
ghost use Rattle.asp_defs.specs.Values.{moves};

use crate::drawn::{derive_all, some_of};
use asp_bits::Bits;
use asp_defs::Game;
use asp_entry::Cube;
use asp_eval::evaluate;
use asp_explain::{base_of, level_rules, move_cube};
use cube_tests::answering::is_move;
use cube_tests::holding::is_held;
use cube_tests::series::Series;
use std::alloc::Global;

/// The verdict on a move of the last level, and how many literals its cubes have.
#[derive(Clone, Copy)]
pub struct Lengths {
    pub verdict: bool,
    /// That of moves of the last level with the verdict.
    pub judged: usize,
    /// That of outer moves after which the last level has such a move.
    pub explained: usize,
}

/// How many literals the cube of the outer move has, which is made so often.
fn length(
    alloc: Global,
    game: &Game,
    level: u32,
    outer_move: &Bits,
    set: &Bits,
    won: &Cube,
    repeats: u32,
) -> Option<usize>
    requires valid { IsValid game.now }
    requires first { 1 ≤ level }
    requires last { level ≤ level_count game.now + 1 }
    requires outer_length { length outer_move.now ≡ length game.now.bases.atoms }
    requires outer { IsTrue (is_subset (true_places outer_move.now) (base game.now (level - 1))) }
    requires set_length { length set.now ≡ length game.now.bases.atoms }
    requires set { IsIn (true_places set.now) (moves game.now level (true_places outer_move.now)) }
{
    let mut length = None;
    for _ in 0..repeats {
        if !is_held(won, set) {
            return None;
        }
        let Ok(cube) = move_cube(alloc, game, level, outer_move, set, won) else {
            return None;
        };
        length = Some(cube.lits().len());
    }
    length
}

/// The lengths of the cubes of a set that is to be a move of the last level.
fn lengths_of(
    alloc: Global,
    game: &Game,
    outer_move: &Bits,
    set: &Bits,
    repeats: u32,
) -> Option<Lengths>
    requires valid { IsValid game.now }
    requires outer_length { length outer_move.now ≡ length game.now.bases.atoms }
    requires set_length { length set.now ≡ length game.now.bases.atoms }
{
    let level = game.quants.len() as u32;
    if !is_move(alloc, game, level, outer_move, set) {
        return None;
    }
    let Ok(judged) = evaluate(alloc, game, set) else {
        return None;
    };
    let explained = length(alloc, game, level, outer_move, set, &judged.cube, repeats)?;
    Some(Lengths {
        verdict: judged.verdict,
        judged: judged.cube.lits().len(),
        explained,
    })
}

/// The lengths of the cubes of a drawn set; none where it is no move of the last level or memory is refused.
pub fn explain(
    alloc: Global,
    game: &Game,
    series: &mut Series,
    one_in: u32,
    repeats: u32,
) -> Option<Lengths>
    requires { IsValid game.now }
{
    let level = game.quants.len() as u32;
    let count = game.bases.atoms.len() as u32;
    let outer_move = some_of(alloc, count, base_of(game, level - 1), series, one_in)?;
    let Ok(mut set) = outer_move.copy(alloc) else {
        return None;
    };
    derive_all(&mut set, level_rules(game, level), series, one_in);
    lengths_of(alloc, game, &outer_move, &set, repeats)
}
