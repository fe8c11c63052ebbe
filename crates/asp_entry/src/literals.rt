//! The literals of marked atoms.
ghost use Rattle.std.specs.Prelude.{◌≡◌, length, map, IfOk};
ghost use Rattle.asp_bits.specs.Places.{true_places};
ghost use Rattle.asp_entry.specs.Cubes.{literal_in};

use asp_bits::Bits;
use asp_defs::{Lit, NoMemory};
use smallvec::SmallVec;
use std::alloc::Global;

/// The literals of the atoms at true places, each as it is in `set`. `NoMemory`: there are more than eight, and memory was
/// refused.
pub(crate) fn literals(
    alloc: Global,
    atoms: &Bits,
    set: &Bits,
) -> Result<SmallVec<Lit, 8>, NoMemory>
    requires { length atoms.now ≡ length set.now }
    ensures { IfOk result
        (λ lits. lits.items ≡ map (literal_in (true_places set.now)) (true_places atoms.now)) }
{
    let mut lits: SmallVec<Lit, 8> = SmallVec::new(alloc);
    for atom in 0..atoms.len() {
        if atoms.get(atom) {
            lits.push(Lit {
                atom,
                positive: set.get(atom),
            })?;
        }
    }
    Ok(lits)
}
