//! The call `move_cube`.
ghost use Rattle.std.specs.Prelude.{◌≡◌, ◌+◌, ◌-◌, ◌≤◌, true, IsTrue, IfOk, length};
ghost use Rattle.asp_bits.specs.Places.{true_places};
ghost use Rattle.asp_defs.specs.Lists.{IsIn};
ghost use Rattle.asp_defs.specs.Games.{IsValid, level_count, base, is_subset};
ghost use Rattle.asp_defs.specs.Entries.{cube_holds};
ghost use Rattle.asp_defs.specs.Values.{moves};
ghost use Rattle.asp_entry.specs.Cubes.{are_lits_below};
ghost use Rattle.asp_explain.specs.Cubes.{IsMoveCube, AreResting};

use crate::bounds::keep_bounds;
use crate::founding::found_atoms;
use crate::level::{base_of, level_bounds, level_rules};
use crate::marks::mark_literals;
use crate::rules::settle;
use crate::thinning::satisfy_by_few;
use asp_bits::Bits;
use asp_defs::{Game, NoMemory};
use asp_entry::{Cube, places};
use std::alloc::Global;

/// Outer atoms on which a move with the literals of `won` rests. `NoMemory`: memory was refused.
fn resting_atoms(
    alloc: Global,
    game: &Game,
    level: u32,
    outer_move: &Bits,
    set: &Bits,
    won: &Cube,
) -> Result<Bits, NoMemory>
    requires valid { IsValid game.now }
    requires first { 1 ≤ level }
    requires last { level ≤ level_count game.now + 1 }
    requires outer { IsTrue (is_subset (true_places outer_move.now) (base game.now (level - 1))) }
    requires set_length { length set.now ≡ length game.now.bases.atoms }
    requires set { IsIn (true_places set.now) (moves game.now level (true_places outer_move.now)) }
    requires won_below { IsTrue (are_lits_below (length set.now) won.now) }
    ensures { IfOk result
        (AreResting game.now level won.now (true_places set.now) (length set.now)) }
{
    let outer = places(alloc, base_of(game, level - 1), set.len())?;
    let mut marks = Bits::new(alloc, set.len())?;
    let mut founded = outer.copy(alloc)?;
    let rules = level_rules(game, level);
    let bases = &game.bases.members.as_slice()[..level as usize];
    mark_literals(&mut marks, won.lits(), &outer);
    found_atoms(alloc, &mut marks, &mut founded, rules, set, &outer)?;
    settle(&mut marks, rules, set, &outer, &founded);
    keep_bounds(&mut marks, level_bounds(game, level), set, &outer);
    satisfy_by_few(alloc, &mut marks, rules, bases, set, &outer)?;
    Ok(marks)
}

/// A cube on outer atoms that holds the outer move, such that after every outer move in it the level has a move that `won`
/// holds. Each of its atoms stands in a rule or bound of the level or in `won`.
///
/// `set` is a move of the level after the outer move, and `won` holds it. The time is linear in the size of the level, of
/// `won` and of the number of the game's atoms, but for a heap of the rules with true bodies and a sort
/// of the rules that none of the atoms first marked satisfies. `NoMemory`: memory was refused.
pub fn move_cube(
    alloc: Global,
    game: &Game,
    level: u32,
    outer_move: &Bits,
    set: &Bits,
    won: &Cube,
) -> Result<Cube, NoMemory>
    requires valid { IsValid game.now }
    requires first { 1 ≤ level }
    requires last { level ≤ level_count game.now + 1 }
    requires outer_length { length outer_move.now ≡ length game.now.bases.atoms }
    requires outer { IsTrue (is_subset (true_places outer_move.now) (base game.now (level - 1))) }
    requires set_length { length set.now ≡ length game.now.bases.atoms }
    requires set { IsIn (true_places set.now) (moves game.now level (true_places outer_move.now)) }
    requires won_below { IsTrue (are_lits_below (length set.now) won.now) }
    requires won { IsTrue (cube_holds won.now (true_places set.now)) }
    ensures { IfOk result
        (IsMoveCube game.now level (true_places outer_move.now) won.now) }
{
    let marks = resting_atoms(alloc, game, level, outer_move, set, won)?;
    let cube = Cube::of_places(alloc, &marks, outer_move)?;
    Ok(cube)
}
