//! Whether codes are literals that a clause or assumptions may have.

ghost use Rattle.std.specs.Prelude.{◌*◌, IsTrue};
ghost use Rattle.asp_search.specs.Seen.{AreCodes};
ghost use Rattle.asp_search.specs.State.{AreDifferent};

/// Whether each literal is one of so many atoms.
pub fn are_codes(literals: &[u32], atoms: u32) -> bool
    ensures { IsTrue result → AreCodes (2 * atoms) literals.now }
{
    for literal in literals {
        if *literal / 2 >= atoms {
            return false;
        }
    }
    true
}

/// Whether the literals' atoms ascend.
pub fn are_ascending(literals: &[u32]) -> bool
    ensures { IsTrue result → AreDifferent literals.now }
{
    let mut next = 0;
    for literal in literals {
        if *literal / 2 < next {
            return false;
        }
        next = *literal / 2 + 1;
    }
    true
}
