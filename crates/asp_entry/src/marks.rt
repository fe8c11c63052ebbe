//! Places of atoms, and marks on them.
ghost use Rattle.std.specs.Prelude.{◌≡◌, ◌<◌, ◌&&◌, ◌∷◌, [], IsTrue, IfOk, length};
ghost use Rattle.asp_bits.specs.Places.{true_places};
ghost use Rattle.asp_defs.specs.Interpretations.{holds};
ghost use Rattle.asp_defs.specs.History.{agrees};
ghost use Rattle.asp_reduct.specs.Bounds.{are_below};
ghost use Rattle.asp_entry.specs.Marks.{IsPlaces, Marks};

use asp_bits::Bits;
use asp_defs::NoMemory;
use std::alloc::Global;

/// The places of these atoms, of so many. `NoMemory`: memory was refused.
pub fn places(alloc: Global, atoms: &[u32], count: u32) -> Result<Bits, NoMemory>
    requires { IsTrue (are_below count atoms.now) }
    ensures { IfOk result (IsPlaces atoms.now count) }
{
    let mut places = Bits::new(alloc, count)?;
    for atom in atoms {
        places.set(*atom, true);
    }
    Ok(places)
}

/// Marks the atom where it is an outer one.
pub fn mark(marks: &mut Bits, atom: u32, outer: &Bits)
    requires below { atom < length outer.now }
    requires marks { length marks.old ≡ length outer.now }
    ensures { Marks (holds (true_places outer.now)) (atom ∷ []) marks.old marks.new }
{
    if outer.get(atom) {
        marks.set(atom, true);
    }
}

/// Marks those of the atoms that are outer ones.
pub fn mark_all(marks: &mut Bits, atoms: &[u32], outer: &Bits)
    requires below { IsTrue (are_below (length outer.now) atoms.now) }
    requires marks { length marks.old ≡ length outer.now }
    ensures { Marks (holds (true_places outer.now)) atoms.now marks.old marks.new }
{
    for atom in atoms {
        mark(marks, *atom, outer);
    }
}

/// Whether the atom is chosen and has this truth.
pub fn is_chosen(atom: u32, truth: bool, set: &Bits, chosen: &Bits) -> bool
    requires below { atom < length set.now }
    requires same_length { length chosen.now ≡ length set.now }
    ensures { result ≡
        (agrees truth (holds (true_places set.now) atom) && holds (true_places chosen.now) atom) }
{
    let value = set.get(atom);
    let picked = chosen.get(atom);
    value == truth && picked
}
