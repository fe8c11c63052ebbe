//! True and false atoms of a list.
ghost use Rattle.std.specs.Prelude.{◌≡◌, not, IsTrue, length};
ghost use Rattle.std.specs.List.{list_any, list_all, find};
ghost use Rattle.asp_bits.specs.Places.{true_places};
ghost use Rattle.asp_defs.specs.Interpretations.{holds};
ghost use Rattle.asp_reduct.specs.Bounds.{are_below};

use asp_bits::Bits;

/// Whether each of the atoms is true.
pub fn all_true(atoms: &[u32], set: &Bits) -> bool
    requires { IsTrue (are_below (length set.now) atoms.now) }
    ensures { result ≡ list_all (holds (true_places set.now)) atoms.now }
{
    for atom in atoms {
        if !set.get(*atom) {
            return false;
        }
    }
    true
}

/// Whether one of the atoms is true.
pub fn any_true(atoms: &[u32], set: &Bits) -> bool
    requires { IsTrue (are_below (length set.now) atoms.now) }
    ensures { result ≡ list_any (holds (true_places set.now)) atoms.now }
{
    for atom in atoms {
        if set.get(*atom) {
            return true;
        }
    }
    false
}

/// Whether none of the atoms is true.
pub fn none_true(atoms: &[u32], set: &Bits) -> bool
    requires { IsTrue (are_below (length set.now) atoms.now) }
    ensures { result ≡ list_all (λ a. not (holds (true_places set.now) a)) atoms.now }
{
    !any_true(atoms, set)
}

/// The first of the atoms that is false, or none where all are true.
pub fn first_false(atoms: &[u32], set: &Bits) -> Option<u32>
    requires { IsTrue (are_below (length set.now) atoms.now) }
    ensures { result ≡ find (λ a. not (holds (true_places set.now) a)) atoms.now }
{
    for atom in atoms {
        if !set.get(*atom) {
            return Some(*atom);
        }
    }
    None
}

/// The first of the atoms that is true, or none where all are false.
pub fn first_true(atoms: &[u32], set: &Bits) -> Option<u32>
    requires { IsTrue (are_below (length set.now) atoms.now) }
    ensures { result ≡ find (holds (true_places set.now)) atoms.now }
{
    for atom in atoms {
        if set.get(*atom) {
            return Some(*atom);
        }
    }
    None
}
