//! The parts of a level.
ghost use Rattle.std.specs.Prelude.{◌≡◌, ◌+◌, ◌≤◌};
ghost use Rattle.asp_defs.specs.Games.{IsValid, level_count, base, rules_of, bounds_of};

use asp_defs::{Bound, Game, GroundRule};

/// The rules of a level.
pub fn level_rules(game: &Game, level: u32) -> &[GroundRule]
    requires valid { IsValid game.now }
    requires first { 1 ≤ level }
    requires last { level ≤ level_count game.now + 1 }
    ensures { result.now ≡ rules_of game.now level }
{
    game.rules.as_slice()[level as usize - 1].as_slice()
}

/// The bounds of a level.
pub fn level_bounds(game: &Game, level: u32) -> &[Bound]
    requires valid { IsValid game.now }
    requires first { 1 ≤ level }
    requires last { level ≤ level_count game.now + 1 }
    ensures { result.now ≡ bounds_of game.now level }
{
    game.bounds.as_slice()[level as usize - 1].as_slice()
}

/// The atoms of a level and of those before; none of level 0.
pub fn base_of(game: &Game, level: u32) -> &[u32]
    requires valid { IsValid game.now }
    requires last { level ≤ level_count game.now + 1 }
    ensures { result.now ≡ base game.now level }
{
    game.bases.members.as_slice()[level as usize].as_slice()
}
