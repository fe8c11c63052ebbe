//! Where constants and atoms stand in ascending lists.
ghost use Rattle.std.specs.Prelude.{◌≡◌, ◌≤◌, length, position};
ghost use Rattle.std.specs.Ordering.{is_eq};
ghost use Rattle.asp_defs.specs.declared.faults.Which.TheVariants as which;
ghost use Rattle.asp_defs.specs.Constants.{const_cmp, atom_cmp};
ghost use Rattle.asp_defs.specs.Limits.{limit};
ghost use Rattle.asp_atoms.specs.Ascending.{Ascends};
ghost use Rattle.asp_atoms.specs.Answers.{IsSearchable};
ghost use Rattle.asp_atoms.specs.ConstRefs.{const_of};
ghost use Rattle.asp_atoms.specs.Vocabularies.{const_rank};

use crate::compare::compare_atoms;
use crate::const_refs::{ConstRef, compare_const_refs, const_ref};
use asp_defs::{Bases, Const, GroundAtom};

/// The place of a constant among ascending ones, or their count where it is none of them. Takes no memory, and about as
/// many comparisons as their count has binary digits.
pub fn place_of(constants: &[Const], constant: ConstRef<'_>) -> usize
    requires { Ascends const_cmp constants.now }
    ensures { result ≡ const_rank constants.now (const_of constant.entry) }
{
    match constants.binary_search_by(|other| compare_const_refs(const_ref(other), constant)) {
        Ok(at) => at,
        Err(_) => constants.len(),
    }
}

/// A constant's rank among constants that ascend: its place, or how many there are where it is none of them.
pub fn rank(constants: &[Const], constant: &Const) -> u32
    requires ordered { Ascends const_cmp constants.now }
    requires few { length constants.now ≤ limit which.Constants }
    ensures { result ≡ const_rank constants.now constant.now }
{
    place_of(constants, const_ref(constant)) as u32
}

/// An atom's number: its place among the atoms of the last base, and none exactly where it isn't one of them. Takes no
/// memory, and about as many comparisons as the number of atoms has binary digits.
pub fn number(bases: &Bases, atom: &GroundAtom) -> Option<u32>
    requires { IsSearchable bases.now }
    ensures { result ≡ position (λ other. is_eq (atom_cmp atom.now other)) bases.now.atoms }
{
    let atoms = bases.atoms.as_slice();
    match atoms.binary_search_by(|other| compare_atoms(other, atom)) {
        Ok(at) => Some(at as u32),
        Err(_) => None,
    }
}
