//! Atoms of a rule by their values in two interpretations.

ghost use Rattle.std.specs.Prelude.{◌≡◌, ◌<◌, true, not, ◌&&◌, IsTrue, MatchOption, length};
ghost use Rattle.std.specs.List.{list_all};
ghost use Rattle.asp_bits.specs.Places.{true_places};
ghost use Rattle.asp_defs.specs.Interpretations.{holds};
ghost use Rattle.asp_defs.specs.Lists.{IsIn};
ghost use Rattle.asp_reduct.specs.Bounds.{are_below};
ghost use Rattle.asp_minimal.specs.Numbers.{has_value};

use asp_bits::Bits;

/// Whether the atom is true in `set` and has the value in `part`.
fn is_with(atom: u32, set: &Bits, part: &Bits, value: bool) -> bool
    requires below { atom < length set.now }
    requires same_length { length part.now ≡ length set.now }
    ensures { result ≡ (holds (true_places set.now) atom && has_value value (holds (true_places part.now) atom)) }
{
    let inside = set.get(atom);
    let covered = part.get(atom);
    inside && covered == value
}

/// The first of the atoms that is true in `set` and has the value in `part`, or none where each true one has the other.
pub fn first_with(atoms: &[u32], set: &Bits, part: &Bits, value: bool) -> Option<u32>
    requires below { IsTrue (are_below (length set.now) atoms.now) }
    requires same_length { length part.now ≡ length set.now }
    ensures { MatchOption result
        (list_all (λ a. not (holds (true_places set.now) a && has_value value (holds (true_places part.now) a))) atoms.now ≡ true)
        (λ atom. IsIn atom atoms.now
        × (holds (true_places set.now) atom ≡ true) × (holds (true_places part.now) atom ≡ value)) }
{
    for atom in atoms {
        if is_with(*atom, set, part, value) {
            return Some(*atom);
        }
    }
    None
}
