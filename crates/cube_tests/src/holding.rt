//! Whether literals make a cube, and whether it holds a set.
ghost use Rattle.std.specs.Prelude.{◌≡◌, IsTrue, length};
ghost use Rattle.asp_bits.specs.Places.{true_places};
ghost use Rattle.asp_defs.specs.Entries.{cube_holds};
ghost use Rattle.asp_entry.specs.Cubes.{lits_ascend, are_lits_below};

use asp_bits::Bits;
use asp_defs::Lit;
use asp_entry::Cube;

/// Whether the atoms strictly ascend.
pub fn do_ascend(lits: &[Lit]) -> bool
    ensures { result ≡ lits_ascend lits.now }
{
    match lits {
        [first, rest @ ..] if !rest.is_empty() => first.atom < rest[0].atom && do_ascend(rest),
        _ => true,
    }
}

fn are_in(lits: &[Lit], count: u32) -> bool
    ensures { result ≡ are_lits_below count lits.now }
{
    lits.iter().all(|lit| lit.atom < count)
}

/// Whether the cube holds the set, which has a place for each of its atoms.
pub fn is_held(cube: &Cube, set: &Bits) -> bool
    ensures below { IsTrue result → IsTrue (are_lits_below (length set.now) cube.now) }
    ensures held { IsTrue result → IsTrue (cube_holds cube.now (true_places set.now)) }
{
    are_in(cube.lits(), set.len()) && cube.holds(set)
}
