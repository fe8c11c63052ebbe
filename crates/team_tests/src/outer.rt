//! An outer move of a level, as the calls want it.
ghost use Rattle.std.specs.Prelude.{◌≡◌, ◌≤◌, ◌-◌, ◌+◌, IsTrue, IfSome, length};
ghost use Rattle.asp_bits.specs.Places.{true_places};
ghost use Rattle.asp_defs.specs.Games.{IsValid, level_count, base as base_of, is_subset};

use asp_bits::Bits;
use asp_defs::Game;
use cube_tests::moves::add;
use std::alloc::Global;

/// Whether the letters have the atom, counted from `a`.
fn has(letters: &str, atom: u32) -> bool {
    letters
        .as_bytes()
        .iter()
        .any(|letter| u32::from(letter.saturating_sub(b'a')) == atom)
}

/// The atoms of the base below a level.
fn base_below(game: &Game, level: u32) -> &[u32]
    requires valid { IsValid game.now }
    requires first { 1 ≤ level }
    requires last { level ≤ level_count game.now + 1 }
    ensures { result.now ≡ base_of game.now (level - 1) }
{
    game.bases.members.as_slice()[level as usize - 1].as_slice()
}

/// The outer move of a level with the atoms of the letters that the base below has; none where memory is refused.
pub fn outer_move(alloc: Global, game: &Game, level: u32, letters: &str) -> Option<Bits>
    requires valid { IsValid game.now }
    requires first { 1 ≤ level }
    requires last { level ≤ level_count game.now + 1 }
    ensures places { IfSome result (λ set. length set ≡ length game.now.bases.atoms) }
    ensures outer { IfSome result (λ set. IsTrue (is_subset (true_places set) (base_of game.now (level - 1)))) }
{
    let base = base_below(game, level);
    let Ok(mut set) = Bits::new(alloc, game.bases.atoms.len() as u32) else {
        return None;
    };
    for place in 0..base.len() {
        add(&mut set, base, place, has(letters, base[place]));
    }
    Some(set)
}
