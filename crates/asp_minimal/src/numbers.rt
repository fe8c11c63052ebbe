//! Which atoms a search has, and under which number: the true atoms of an interpretation that aren't free, in their order.

ghost use Rattle.std.specs.Prelude.{◌≡◌, ℕ, ◌<◌, length, IfOk};
ghost use Rattle.asp_search.specs.Found.{assignment_of};
ghost use Rattle.asp_search.specs.State.{HasFound};
ghost use Rattle.asp_minimal.specs.Numbers.{written, numbers_from, number_at, AreNumbers, leaves as is_leaving, leaving_places};

use asp_bits::Bits;
use asp_defs::{List, NoMemory};
use asp_search::Search;
use std::alloc::Global;

/// Gives the places of these atoms a value. An atom past the end has no place.
pub fn write(bits: &mut Bits, atoms: &[u32], value: bool)
    ensures { bits.new ≡ written value bits.old atoms.now }
{
    for atom in atoms {
        if *atom < bits.len() {
            bits.set(*atom, value);
        }
    }
}

/// The number of each true place, from 0 in their order, and none for a false one.
pub fn numbered(alloc: Global, bits: &Bits) -> Result<Vec<Option<u32>>, NoMemory>
    ensures { IfOk result (λ numbers. numbers.items ≡ numbers_from 0 bits.now) }
{
    let mut numbers = Vec::new(alloc);
    let mut next = 0;
    for place in 0..bits.len() {
        if bits.get(place) {
            numbers.push(Some(next))?;
            next += 1;
        } else {
            numbers.push(None)?;
        }
    }
    Ok(numbers)
}

/// The number of an atom.
pub fn number_of(numbers: &[Option<u32>], atom: u32) -> Option<u32>
    requires { atom < length numbers.now }
    ensures { result ≡ number_at numbers.now atom }
{
    numbers[atom as usize]
}

/// Whether the atom of that number leaves in the assignment that was found. One without a number never does.
fn leaves(search: &Search, number: Option<u32>) -> bool
    requires found { HasFound search.now }
    requires number { (n : ℕ) → number ≡ Some n → n < search.now.atoms }
    ensures { result ≡ is_leaving (assignment_of search.now.trail) number }
{
    match number {
        Some(number) => !search.value(number),
        None => false,
    }
}

/// The atoms below `len` that leave in the assignment that was found, ascending.
pub fn leaving(
    alloc: Global,
    search: &Search,
    numbers: &[Option<u32>],
    len: u32,
) -> Result<List<u32>, NoMemory>
    requires found { HasFound search.now }
    requires numbers { AreNumbers search.now.atoms numbers.now }
    requires len { len ≡ length numbers.now }
    ensures { IfOk result (λ atoms. atoms ≡ leaving_places (assignment_of search.now.trail) numbers.now) }
{
    let mut atoms = Vec::new(alloc);
    for atom in 0..len {
        if leaves(search, number_of(numbers, atom)) {
            atoms.push(atom)?;
        }
    }
    Ok(List::from_vec(atoms))
}
