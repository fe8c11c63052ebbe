//! The marks of literals' atoms.
ghost use Rattle.std.specs.Prelude.{◌≡◌, IsTrue, length};
ghost use Rattle.asp_bits.specs.Places.{true_places};
ghost use Rattle.asp_entry.specs.Cubes.{are_lits_below};
ghost use Rattle.asp_explain.specs.Achieving.{MarksLiterals};

use asp_bits::Bits;
use asp_defs::Lit;
use asp_entry::mark;

/// Marks those of the literals' atoms that are outer ones.
pub fn mark_literals(marks: &mut Bits, lits: &[Lit], outer: &Bits)
    requires below { IsTrue (are_lits_below (length outer.now) lits.now) }
    requires marks { length marks.old ≡ length outer.now }
    ensures { MarksLiterals (true_places outer.now) lits.now marks.old marks.new }
{
    for lit in lits {
        mark(marks, lit.atom, outer);
    }
}
