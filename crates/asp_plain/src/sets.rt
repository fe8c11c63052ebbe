// The quantified answer sets, in order.
ghost use Rattle.std.specs.Prelude.{◌≡◌, ◌≤◌, ◌++◌, map, IfOk, OnOk};
ghost use Rattle.std.specs.List.{filter};
ghost use Rattle.asp_plain.specs.Levels.{first_own, is_won as is_won_by};
ghost use Rattle.asp_plain.specs.Masks.{candidates};
ghost use Rattle.asp_plain.specs.Sets.{values_of};

use crate::masks::Level;
use crate::value::{has_answer, value};
use asp_bits::Bits;
use asp_defs::{List, NoMemory, Quant};
use std::alloc::Global;

/// Whether the set is an answer set of the first level from which the next levels, with these quantifiers, are won.
fn is_won(quants: &[Quant], levels: &[Level], set: u32) -> bool
    ensures { result ≡ is_won_by quants.now levels.now set }
{
    let Some((level, inner)) = levels.split_first() else {
        return false;
    };
    has_answer(level, set) && value(quants, inner, set)
}

/// Adds the sets that are won among those that have `set` and some of the bits `rest` beside it, in the order of
/// interpretations: those without the first of the bits come first.
fn add_won(
    quants: &[Quant],
    levels: &[Level],
    rest: &[u32],
    set: u32,
    found: &mut Vec<u32>,
) -> Result<(), NoMemory>
    ensures { OnOk result
        (found.new.items ≡ found.old.items ++ filter (is_won_by quants.now levels.now) (candidates set rest.now)) }
{
    if let Some((bit, others)) = rest.split_first() {
        add_won(quants, levels, others, set, found)?;
        return add_won(quants, levels, others, set | *bit, found);
    }
    if is_won(quants, levels, set) {
        found.push(set)?;
    }
    Ok(())
}

/// The sets of the first level that are won, where `quants` are the quantifiers of the levels behind it.
pub fn won_sets(alloc: Global, quants: &[Quant], levels: &[Level]) -> Result<Vec<u32>, NoMemory>
    ensures { IfOk result
        (λ sets. sets.items ≡ filter (is_won_by quants.now levels.now) (candidates 0 (first_own levels.now))) }
{
    let mut found = Vec::new(alloc);
    if let Some(level) = levels.first() {
        add_won(quants, levels, level.own.as_slice(), 0, &mut found)?;
    }
    Ok(found)
}

/// The set as an interpretation of so many atoms.
fn interpretation(alloc: Global, count: u32, set: u32) -> Result<Bits, NoMemory>
    requires { count ≤ 32 }
    ensures { IfOk result (λ bits. bits ≡ values_of count set) }
{
    let mut bits = Bits::new(alloc, count)?;
    for atom in 0..count {
        bits.set(atom, (set >> atom) & 1 == 1);
    }
    Ok(bits)
}

/// The sets as interpretations of so many atoms.
pub fn interpretations(alloc: Global, count: u32, sets: &[u32]) -> Result<List<Bits>, NoMemory>
    requires { count ≤ 32 }
    ensures { IfOk result (λ all. all ≡ map (values_of count) sets.now) }
{
    let mut all = List::new(alloc);
    for set in sets {
        let bits = interpretation(alloc, count, *set)?;
        all.push(bits)?;
    }
    Ok(all)
}
