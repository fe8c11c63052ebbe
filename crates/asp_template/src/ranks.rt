//! Where a constant and a predicate stand in an ascending list.
ghost use Rattle.std.specs.Prelude.{◌≡◌, map};
ghost use Rattle.asp_defs.specs.Constants.{const_cmp};
ghost use Rattle.asp_defs.specs.Bases.{predicate_cmp};
ghost use Rattle.asp_atoms.specs.Ascending.{Ascends};
ghost use Rattle.asp_atoms.specs.ConstRefs.{const_of};
ghost use Rattle.asp_atoms.specs.Vocabularies.{unnumbered};
ghost use Rattle.asp_template.specs.Ranks.{capped, rank_of, predicate_place, first_of};

use asp_atoms::{ConstRef, NumberedPredicate, place_of};
use asp_defs::Const;
use std::cmp::Ordering;

/// A number, at most the greatest one of 32 bits.
pub fn capped(number: usize) -> u32
    ensures { result ≡ capped number }
{
    number.min(u32::MAX as usize) as u32
}

/// The rank of a constant.
pub fn rank_of(constants: &[Const], constant: ConstRef<'_>) -> u32
    requires { Ascends const_cmp constants.now }
    ensures { result ≡ rank_of constants.now (const_of constant.entry) }
{
    capped(place_of(constants, constant))
}

/// How a numbered predicate compares with another.
fn compare_predicate(numbered: &NumberedPredicate, name: &[u8], arity: usize) -> Ordering
    ensures { result ≡ predicate_cmp (unnumbered numbered.now) (record { name = name.now; arity = arity }) }
{
    match numbered.name.as_slice().cmp(name) {
        Ordering::Less => Ordering::Less,
        Ordering::Equal => (numbered.arity as usize).cmp(&arity),
        Ordering::Greater => Ordering::Greater,
    }
}

/// The place of a predicate among ascending ones, or their count where it is none of them.
fn predicate_place(predicates: &[NumberedPredicate], name: &[u8], arity: usize) -> usize
    requires { Ascends predicate_cmp (map unnumbered predicates.now) }
    ensures { result ≡ predicate_place predicates.now (record { name = name.now; arity = arity }) }
{
    match predicates.binary_search_by(|other| compare_predicate(other, name, arity)) {
        Ok(place) => place,
        Err(_) => predicates.len(),
    }
}

/// The number of a predicate's first atom, and 0 where it is none of the predicates.
pub fn first_of(predicates: &[NumberedPredicate], name: &[u8], arity: usize) -> u32
    requires { Ascends predicate_cmp (map unnumbered predicates.now) }
    ensures { result ≡ first_of predicates.now (record { name = name.now; arity = arity }) }
{
    let place = predicate_place(predicates, name, arity);
    if place < predicates.len() {
        predicates[place].first
    } else {
        0
    }
}
