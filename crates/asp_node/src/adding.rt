//! Entries that are added.
ghost use Rattle.std.specs.Prelude.{◌≡◌, ℕ, IsTrue, Ok, Err, IfOk};
ghost use Rattle.asp_bits.specs.Places.{true_places};
ghost use Rattle.asp_defs.specs.declared.faults.Give.TheVariants as gives;
ghost use Rattle.asp_defs.specs.declared.faults.Unknown.{Unknown};
ghost use Rattle.asp_defs.specs.Entries.{is_entry};
ghost use Rattle.asp_defs.specs.Games.{IsValid};
ghost use Rattle.asp_defs.specs.History.{is_justified};
ghost use Rattle.asp_store.specs.Shelves.{GoesOn, IsHolding};
ghost use Rattle.asp_node.specs.Causes.{IsStoreSpent};

use asp_bits::Bits;
use asp_defs::{Give, List, NoMemory};
use asp_entry::Entry;
use asp_store::{AddFault, Added, Shelf};
use std::alloc::Global;

/// The atoms that are true, ascending. `NoMemory`: memory was refused.
pub fn true_atoms(alloc: Global, set: &Bits) -> Result<List<u32>, NoMemory>
    ensures { IfOk result (λ atoms. atoms ≡ true_places set.now) }
{
    let mut atoms = List::new(alloc);
    for atom in 0..set.len() {
        if set.get(atom) {
            atoms.push(atom)?;
        }
    }
    Ok(atoms)
}

/// The position of an entry that holds the seed of this one: this one, or one that was there. `Spent`: the cells don't
/// suffice. `NoMemory`: memory was refused.
pub fn add_entry<S: Shelf>(alloc: Global, shelf: &mut S, entry: Entry) -> Result<u32, Give>
    requires valid { IsValid (S.state shelf.old).game }
    requires formed { IsTrue (is_entry (S.state shelf.old).game entry) }
    requires justified { IsTrue (is_justified (S.state shelf.old).game (S.state shelf.old).seen entry) }
    ensures goes_on { GoesOn (S.state shelf.old) (S.state shelf.new) }
    ensures held { (at : ℕ) → result ≡ Ok at → IsHolding (S.state shelf.new).seen entry.level entry.seed at }
    ensures spent { (unknown : Unknown) → result ≡ Err (gives.Spent unknown)
        → IsStoreSpent (S.state shelf.old) (S.state shelf.new) unknown }
{
    match shelf.add(alloc, entry) {
        Ok(Added::Known(at)) => Ok(at),
        Ok(Added::New(at)) => Ok(at),
        Err(AddFault::Spent(unknown)) => Err(Give::Spent(unknown)),
        Err(AddFault::NoMemory) => Err(Give::NoMemory),
    }
}
