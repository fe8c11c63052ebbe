//! The regions of all sets over a base, or of the sets that come after one.
ghost use Rattle.std.specs.Prelude.{◌≡◌, ◌<◌, ◌≤◌, ◌^◌, min, not, length, map, option_map, option_copied, Some, IsTrue, IfOk, IfSome};
ghost use Rattle.std.specs.List.{filter, slice_get};
ghost use Rattle.asp_bits.specs.Places.{true_places};
ghost use Rattle.asp_defs.specs.Interpretations.{holds};
ghost use Rattle.asp_pages.specs.Regions.{most_atoms, most_split, are_below, patterns, regions_behind, regions_of, count_of};

use asp_bits::Bits;
use asp_defs::{List, Lit, NoMemory};
use std::alloc::Global;

/// How many regions there are. Without `after` they are the sign patterns of the first atoms of the base, `split` of them or
/// all; with `after` there is one for each atom of the base that is false in it.
pub fn regions(base: &[u32], after: Option<&Bits>, split: u32) -> u32
    requires few { length base.now ≤ most_atoms }
    requires below { IfSome after (λ set. IsTrue (are_below (length set.now) base.now)) }
    requires split { split ≤ most_split }
    ensures { result ≡ count_of base.now (option_map true_places (option_copied after.entry)) split }
{
    match after {
        None => 2u32.pow(depth(base, split)),
        Some(set) => count_false(base, set),
    }
}

/// The literals of a region, counted from 0. Without `after`, falsity comes first; with `after`, the region of the last atom
/// that is false in it: that atom is true, and the earlier ones are as in `after`. `NoMemory`: memory was refused.
pub fn region_list(
    alloc: Global,
    base: &[u32],
    after: Option<&Bits>,
    split: u32,
    at: u32,
) -> Result<List<Lit>, NoMemory>
    requires few { length base.now ≤ most_atoms }
    requires below { IfSome after (λ set. IsTrue (are_below (length set.now) base.now)) }
    requires split { split ≤ most_split }
    requires at { at < count_of base.now (option_map true_places (option_copied after)) split }
    ensures { IfOk result (λ lits.
        slice_get (regions_of base.now (option_map true_places (option_copied after.entry)) split) at ≡ Some lits) }
{
    match after {
        None => pattern(alloc, base, split, at),
        Some(set) => region_after(alloc, base, set, at),
    }
}

/// How many atoms of the base are fixed in a pattern.
fn depth(base: &[u32], split: u32) -> u32
    requires few { length base.now ≤ most_atoms }
    ensures { result ≡ min split (length base.now) }
{
    split.min(base.len() as u32)
}

/// How many atoms of the base are false in a set.
fn count_false(base: &[u32], set: &Bits) -> u32
    requires few { length base.now ≤ most_atoms }
    requires below { IsTrue (are_below (length set.now) base.now) }
    ensures { result ≡ length (filter (λ a. not (holds (true_places set.now) a)) base.now) }
{
    let mut count = 0;
    for atom in base {
        if !set.get(*atom) {
            count += 1;
        }
    }
    count
}

/// The literals of a sign pattern.
fn pattern(alloc: Global, base: &[u32], split: u32, at: u32) -> Result<List<Lit>, NoMemory>
    requires few { length base.now ≤ most_atoms }
    requires split { split ≤ most_split }
    requires at { at < 2 ^ min split (length base.now) }
    ensures { IfOk result (λ lits. slice_get (patterns split base.now) at ≡ Some lits) }
{
    let mut lits = List::new(alloc);
    let fixed = depth(base, split);
    let mut half = 2u32.pow(fixed);
    let mut left = at;
    for place in 0..fixed {
        half /= 2;
        let positive = half <= left;
        if positive {
            left -= half;
        }
        lits.push(Lit {
            atom: base[place as usize],
            positive,
        })?;
    }
    Ok(lits)
}

/// The literals of a region after a set: as many of the atoms that are false in the set stay so as come before the region's.
fn region_after(alloc: Global, base: &[u32], set: &Bits, at: u32) -> Result<List<Lit>, NoMemory>
    requires few { length base.now ≤ most_atoms }
    requires below { IsTrue (are_below (length set.now) base.now) }
    requires at { at < length (filter (λ a. not (holds (true_places set.now) a)) base.now) }
    ensures { IfOk result (λ lits. slice_get (regions_behind (true_places set.now) base.now) at ≡ Some lits) }
{
    let mut lits = List::new(alloc);
    let mut left = count_false(base, set) - 1 - at;
    for atom in base {
        let inside = set.get(*atom);
        let positive = inside || left == 0;
        lits.push(Lit {
            atom: *atom,
            positive,
        })?;
        if !inside {
            if left == 0 {
                return Ok(lits);
            }
            left -= 1;
        }
    }
    Ok(lits)
}
