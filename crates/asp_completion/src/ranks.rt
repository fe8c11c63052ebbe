//! Places of atoms in a base.
ghost use Rattle.std.specs.Prelude.{◌≡◌, ◌≤◌, true, length, IsTrue, IfOk, nat_lt};
ghost use Rattle.std.specs.List.{list_all};
ghost use Rattle.asp_defs.specs.Games.{ascends, base as base_of, level_count, IsValid};
ghost use Rattle.asp_completion.specs.Levels.{AreRanks};

use asp_defs::{Game, NoMemory};
use std::alloc::Global;

/// The place of each atom of an ascending base there, in a table over all atoms of the game.
fn places(alloc: Global, base: &[u32], atoms: u32) -> Result<Vec<u32>, NoMemory>
    requires ascending { ascends base.now ≡ true }
    requires below { IsTrue (list_all (λ a. nat_lt a atoms) base.now) }
    requires few { length base.now ≤ 262144 }
    ensures { IfOk result (λ ranks. AreRanks base.now atoms ranks.items) }
{
    let mut ranks = Vec::from_elem(alloc, 0u32, atoms as usize)?;
    for place in 0..base.len() {
        ranks[base[place] as usize] = place as u32;
    }
    Ok(ranks)
}

/// The place of each atom of a level's base there, in a table over all atoms of the game.
pub fn ranks(alloc: Global, game: &Game, level: u32) -> Result<Vec<u32>, NoMemory>
    requires valid { IsValid game.now }
    requires first { 1 ≤ level }
    requires last { level ≤ level_count game.now }
    ensures { IfOk result
        (λ ranks. AreRanks (base_of game.now level) (length game.now.bases.atoms) ranks.items) }
{
    let bases = game.bases.members.as_slice();
    let base = bases[level as usize].as_slice();
    let atoms = game.bases.atoms.len() as u32;
    places(alloc, base, atoms)
}
