//! The answer at the end of a level's search.
ghost use Rattle.std.specs.Prelude.{◌≡◌, ℕ, List, [], IsTrue, Ok, Err};
ghost use Rattle.asp_bits.specs.Places.{true_places};
ghost use Rattle.asp_defs.specs.declared.faults.Give.TheVariants as gives;
ghost use Rattle.asp_defs.specs.declared.faults.Unknown.{Unknown};
ghost use Rattle.asp_defs.specs.declared.ground.Lit.{Lit};
ghost use Rattle.asp_defs.specs.History.{is_legal};
ghost use Rattle.asp_store.specs.Shelves.{GoesOn, IsHolding};
ghost use Rattle.asp_node.specs.Causes.{IsStoreSpent};
ghost use Rattle.asp_node.specs.Ends.{IsExhausted};
ghost use Rattle.asp_node.specs.Places.{IsPlace};
ghost use Rattle.asp_node.specs.declared.place.RegionEnd.TheVariants as ends;

use asp_defs::Give;
use asp_entry::{Cube, Entry};
use asp_node::{Place, RegionEnd, add_entry, true_atoms, winning_verdict};
use asp_store::Shelf;
use std::alloc::Global;

/// Adds the entry of a level after whose outer moves in a cube every move is refuted. The answer is the position of an entry
/// that holds the outer move. `Spent`: the cells don't suffice. `NoMemory`: memory was refused.
fn add_exhausted<S: Shelf>(
    alloc: Global,
    shelf: &mut S,
    place: &Place<'_>,
    cube: Cube,
) -> Result<u32, Give>
    requires place { IsPlace place.now.game.now place.now.level place.now.outer.now [] }
    requires game { (S.state shelf.old).game ≡ place.now.game.now }
    requires legal { IsTrue (is_legal (S.state shelf.old).game (S.state shelf.old).seen) }
    requires exhausted { IsExhausted place.now.game.now place.now.level (true_places place.now.outer.now) []
        (S.state shelf.old).seen cube }
    ensures goes_on { GoesOn (S.state shelf.old) (S.state shelf.new) }
    ensures held { (at : ℕ) → result ≡ Ok at
        → IsHolding (S.state shelf.new).seen place.now.level (true_places place.now.outer.now) at }
    ensures spent { (unknown : Unknown) → result ≡ Err (gives.Spent unknown)
        → IsStoreSpent (S.state shelf.old) (S.state shelf.new) unknown }
{
    let seed = true_atoms(alloc, place.outer)?;
    let entry = Entry {
        level: place.level,
        cube,
        verdict: !winning_verdict(place.game, place.level),
        seed,
    };
    add_entry(alloc, shelf, entry)
}

/// The position of an entry that holds the outer move, at the end of a search of all its moves. `Spent`: the cells don't suffice
/// for the entry. `NoMemory`: memory was refused.
pub(crate) fn conclude<S: Shelf>(
    alloc: Global,
    shelf: &mut S,
    place: &Place<'_>,
    end: RegionEnd,
) -> Result<u32, Give>
    requires place { IsPlace place.now.game.now place.now.level place.now.outer.now [] }
    requires game { (S.state shelf.old).game ≡ place.now.game.now }
    requires legal { IsTrue (is_legal (S.state shelf.old).game (S.state shelf.old).seen) }
    requires decided { (at : ℕ) → end ≡ ends.Decided at
        → IsHolding (S.state shelf.old).seen place.now.level (true_places place.now.outer.now) at }
    requires exhausted { (cube : List Lit) → end ≡ ends.Exhausted cube
        → IsExhausted place.now.game.now place.now.level (true_places place.now.outer.now) [] (S.state shelf.old).seen cube }
    ensures goes_on { GoesOn (S.state shelf.old) (S.state shelf.new) }
    ensures held { (at : ℕ) → result ≡ Ok at
        → IsHolding (S.state shelf.new).seen place.now.level (true_places place.now.outer.now) at }
    ensures spent { (unknown : Unknown) → result ≡ Err (gives.Spent unknown)
        → IsStoreSpent (S.state shelf.old) (S.state shelf.new) unknown }
{
    match end {
        RegionEnd::Decided(at) => Ok(at),
        RegionEnd::Exhausted(cube) => add_exhausted(alloc, shelf, place, cube),
    }
}
