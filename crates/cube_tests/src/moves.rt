//! An outer move of a game.
ghost use Rattle.std.specs.Prelude.{◌≡◌, IsTrue, IfSome, length};
ghost use Rattle.asp_bits.specs.Places.{true_places};
ghost use Rattle.asp_defs.specs.Games.{IsValid, level_count, base, is_subset};
ghost use Rattle.asp_eval.specs.Covering.{IsWithin};

use asp_bits::Bits;
use asp_defs::Game;
use std::alloc::Global;

/// The atoms of the last level and of those before.
pub fn outer_atoms(game: &Game) -> &[u32]
    requires { IsValid game.now }
    ensures { result.now ≡ base game.now (level_count game.now) }
{
    game.bases.members.as_slice()[game.quants.len()].as_slice()
}

/// Adds the atom at a place of the base, if there is one and it is wanted.
pub fn add(set: &mut Bits, base: &[u32], place: usize, wanted: bool)
    requires { IsWithin (true_places set.old) base.now }
    ensures within { IsWithin (true_places set.new) base.now }
    ensures length { length set.new ≡ length set.old }
{
    if !wanted || place >= base.len() {
        return;
    }
    let atom = base[place];
    if atom < set.len() {
        set.set(atom, true);
    }
}

/// The outer move behind the last level whose atoms have these bits, the first atom of the base the lowest; none where memory
/// is refused.
pub fn outer_move(alloc: Global, game: &Game, bits: u32) -> Option<Bits>
    requires { IsValid game.now }
    ensures length { IfSome result (λ set. length set ≡ length game.now.bases.atoms) }
    ensures subset { IfSome result
        (λ set. IsTrue (is_subset (true_places set) (base game.now (level_count game.now)))) }
{
    let base = outer_atoms(game);
    let Ok(mut set) = Bits::new(alloc, game.bases.atoms.len() as u32) else {
        return None;
    };
    let mut rest = bits;
    for place in 0..base.len() {
        add(&mut set, base, place, rest % 2 == 1);
        rest /= 2;
    }
    Some(set)
}
