// Laws of bases and numbers: each contract is one, and each body is empty.
ghost use Rattle.asp_atoms.specs.Laws.{BasesAscend, NumbersAreRead, NumbersAreBelow};

/// The atoms of each base ascend.
pub fn bases_ascend()
    ensures { BasesAscend }
{}

/// The number of an atom is that of its predicate's first atom and, behind it, the ranks of its arguments read in the
/// base of the number of constants, the first argument being the most significant.
pub fn numbers_are_read()
    ensures { NumbersAreRead }
{}

/// What is read so for constants of the last universe is the number of an atom of the last base.
pub fn numbers_are_below()
    ensures { NumbersAreBelow }
{}
