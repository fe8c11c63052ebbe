// Bounds of choices over sets of at most 20 atoms, where a set is a mask, and which sets of a table meet them.
ghost use Rattle.std.specs.Prelude.{◌≡◌, ◌<◌, length, map, IsTrue, IfOk};
ghost use Rattle.std.specs.List.{list_all};
ghost use Rattle.std.specs.Int.RustNames.{bit_and, bit_or};
ghost use Rattle.asp_defs.specs.Bounds.{is_at_least as is_so_many, is_at_most as is_no_more};
ghost use Rattle.asp_plain.specs.Cubes.{Sifted};
ghost use Rattle.asp_plain.specs.MaskedBounds.{masked_term, masked_bound, are_true as are_all_true, counted_in, meets as is_met, meets_all as are_met};
ghost use Rattle.asp_plain.specs.Masks.{most_masked};
ghost use Rattle.asp_reduct.specs.Bounds.{is_bound_below, is_term_below};

use crate::answers::first_bit;
use crate::masks::{bit, mask};
use asp_defs::{Bound, Counted, List, NoMemory};
use std::alloc::Global;

/// An atom that a bound counts in a set that has it, where its condition is true.
#[derive(Clone, Copy)]
pub struct MaskedTerm {
    /// The atom's bit.
    pub atom: u32,
    /// The atoms that the condition wants true.
    pub positive: u32,
    /// The atoms that it wants false.
    pub negative: u32,
}

/// A bound whose lists of atoms are masks.
#[derive(Drop)]
pub struct MaskedBound {
    /// The atoms that its body wants true.
    pub positive: u32,
    /// The atoms that its body wants false.
    pub negative: u32,
    /// The least number.
    pub low: Option<i32>,
    /// The greatest number.
    pub high: Option<i32>,
    /// The counted atoms with their conditions.
    pub counted: List<MaskedTerm>,
}

/// The term as masks.
fn masked_term_of(term: &Counted) -> MaskedTerm
    requires { IsTrue (is_term_below most_masked term.now) }
    ensures { result ≡ masked_term term.now }
{
    MaskedTerm {
        atom: bit(term.atom),
        positive: mask(term.pos.as_slice()),
        negative: mask(term.neg.as_slice()),
    }
}

/// The bound as masks.
fn masked_bound_of(alloc: Global, bound: &Bound) -> Result<MaskedBound, NoMemory>
    requires { IsTrue (is_bound_below most_masked bound.now) }
    ensures { IfOk result (λ masked. masked ≡ masked_bound bound.now) }
{
    let mut counted = Vec::new(alloc);
    for term in bound.counted.as_slice() {
        counted.push(masked_term_of(term))?;
    }
    Ok(MaskedBound {
        positive: mask(bound.pos.as_slice()),
        negative: mask(bound.neg.as_slice()),
        low: bound.low,
        high: bound.high,
        counted: List::from_vec(counted),
    })
}

/// The bounds as masks.
pub fn masked_bounds(alloc: Global, bounds: &[Bound]) -> Result<Vec<MaskedBound>, NoMemory>
    requires { IsTrue (list_all (is_bound_below most_masked) bounds.now) }
    ensures { IfOk result (λ all. all.items ≡ map masked_bound bounds.now) }
{
    let mut all = Vec::new(alloc);
    for bound in bounds {
        all.push(masked_bound_of(alloc, bound)?)?;
    }
    Ok(all)
}

/// Whether the set has all of some atoms and none of others.
fn are_true(set: u32, positive: u32, negative: u32) -> bool
    ensures { result ≡ are_all_true set positive negative }
{
    positive & set == positive && negative & set == 0
}

/// The set's atoms that the terms count.
fn counted(terms: &[MaskedTerm], set: u32) -> u32
    ensures { result ≡ counted_in set terms.now }
{
    let mut atoms = 0;
    for term in terms {
        if are_true(set, term.positive, term.negative) {
            atoms |= term.atom;
        }
    }
    atoms & set
}

/// Whether the count is at least the lower bound, where there is one.
fn is_at_least(low: Option<i32>, count: u32) -> bool
    ensures { result ≡ is_so_many low count }
{
    match low {
        Some(low) => i64::from(low) <= i64::from(count),
        None => true,
    }
}

/// Whether the count is at most the upper bound, where there is one.
fn is_at_most(high: Option<i32>, count: u32) -> bool
    ensures { result ≡ is_no_more high count }
{
    match high {
        Some(high) => i64::from(count) <= i64::from(high),
        None => true,
    }
}

/// Whether the set meets the bound.
fn meets(bound: &MaskedBound, set: u32) -> bool
    ensures { result ≡ is_met set bound.now }
{
    if !are_true(set, bound.positive, bound.negative) {
        return true;
    }
    let count = counted(bound.counted.as_slice(), set).count_ones();
    is_at_least(bound.low, count) && is_at_most(bound.high, count)
}

/// Whether the set meets all the bounds.
pub fn meets_all(bounds: &[MaskedBound], set: u32) -> bool
    ensures { result ≡ are_met bounds.now set }
{
    bounds.iter().all(|bound| meets(bound, set))
}

/// Takes the sets of the cube out of the table that don't meet the bounds.
pub fn keep_met(bounds: &[MaskedBound], set: u32, rest: u32, table: &mut [bool])
    requires apart { bit_and set rest ≡ 0 }
    requires inside { bit_or set rest < length table.now }
    ensures { Sifted set rest (are_met bounds.now) table.old table.new }
{
    if rest == 0 {
        if !meets_all(bounds, set) {
            table[set as usize] = false;
        }
        return;
    }
    let bit = first_bit(rest);
    keep_met(bounds, set, rest ^ bit, table);
    keep_met(bounds, set | bit, rest ^ bit, table);
}
