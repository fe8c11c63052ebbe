//! How a test names the row that fails, and sets by their atoms.
use asp_bits::Bits;
use asp_defs::NoMemory;
use std::alloc::Global;
use std::test::Fail;

/// Fails with the row's name where the row isn't as it should be.
pub fn expect(holds: bool, row: &str) -> Result<(), Fail> {
    if holds {
        return Ok(());
    }
    Err(Fail::new(row))
}

/// How many places the sets have.
pub const PLACES: u32 = 8;

/// The set of these atoms.
pub fn set(alloc: Global, atoms: &[u32]) -> Result<Bits, NoMemory> {
    let mut set = Bits::new(alloc, PLACES)?;
    for atom in atoms {
        if *atom < set.len() {
            set.set(*atom, true);
        }
    }
    Ok(set)
}

/// Whether the set has just these atoms, which ascend.
pub fn has_atoms(set: &Bits, atoms: &[u32]) -> bool {
    let mut found = 0;
    for place in 0..set.len() {
        if set.get(place) {
            if found >= atoms.len() || atoms[found] != place {
                return false;
            }
            found += 1;
        }
    }
    found == atoms.len()
}
