//! The orders of constants and of atoms.
ghost use Rattle.std.specs.Prelude.{◌≡◌, length};
ghost use Rattle.std.specs.Ordering.{nat_cmp, ordering_then};
ghost use Rattle.std.specs.Cmp.Lexicographic.{slice_cmp};
ghost use Rattle.asp_defs.specs.Constants.{const_cmp, atom_cmp};

use crate::const_refs::{compare_const_refs, const_ref};
use asp_defs::{Const, GroundAtom};
use std::cmp::Ordering;

/// Compares constants.
fn compare(left: &Const, right: &Const) -> Ordering
    ensures { result ≡ const_cmp left.now right.now }
{
    compare_const_refs(const_ref(left), const_ref(right))
}

/// Compares lists of constants from the left.
fn compare_lists(left: &[Const], right: &[Const]) -> Ordering
    ensures { result ≡ slice_cmp const_cmp left.now right.now }
{
    for (at, constant) in left.iter().enumerate() {
        if at >= right.len() {
            return Ordering::Greater;
        }
        match compare(constant, &right[at]) {
            Ordering::Less => return Ordering::Less,
            Ordering::Equal => {}
            Ordering::Greater => return Ordering::Greater,
        }
    }
    if left.len() < right.len() {
        Ordering::Less
    } else {
        Ordering::Equal
    }
}

/// Compares the arguments of atoms: by how many there are, then from the left.
fn compare_arguments(left: &[Const], right: &[Const]) -> Ordering
    ensures { result ≡ ordering_then (nat_cmp (length left.now) (length right.now)) (slice_cmp const_cmp left.now right.now) }
{
    match left.len().cmp(&right.len()) {
        Ordering::Less => Ordering::Less,
        Ordering::Equal => compare_lists(left, right),
        Ordering::Greater => Ordering::Greater,
    }
}

/// Compares atoms: by name, then by arity, then by the arguments from the left.
pub fn compare_atoms(left: &GroundAtom, right: &GroundAtom) -> Ordering
    ensures { result ≡ atom_cmp left.now right.now }
{
    match left.name.as_slice().cmp(right.name.as_slice()) {
        Ordering::Less => Ordering::Less,
        Ordering::Equal => compare_arguments(left.args.as_slice(), right.args.as_slice()),
        Ordering::Greater => Ordering::Greater,
    }
}
