//! Regions: the signs of the first atoms, and what comes after a set.
ghost use Rattle.std.specs.Prelude.{◌≡◌};
ghost use Rattle.asp_pages.specs.Regions.{are_below};

use crate::rows::{expect, set};
use asp_bits::Bits;
use asp_defs::{List, Lit};
use asp_pages::{region_list, regions};
use std::alloc::Global;
use std::test::Fail;

/// A base with gaps, so that atoms and their places in it differ.
const BASE: [u32; 4] = [1, 2, 4, 7];

/// Whether each atom is below a count.
fn is_below(count: u32, atoms: &[u32]) -> bool
    ensures { result ≡ are_below count atoms.now }
{
    for atom in atoms {
        if *atom >= count {
            return false;
        }
    }
    true
}

/// How many regions there are of all sets over a base.
fn count_all(base: &[u32], split: u32) -> Option<u32> {
    if base.len() > 8 || split > 9 {
        return None;
    }
    Some(regions(base, None, split))
}

/// How many regions there are after a set.
fn count_after(base: &[u32], after: &Bits) -> Option<u32> {
    if base.len() > 8 || !is_below(after.len(), base) {
        return None;
    }
    Some(regions(base, Some(after), 0))
}

/// A region of all sets over a base; none where it isn't there or memory was refused.
fn region_of_all(alloc: Global, base: &[u32], split: u32, at: u32) -> Option<List<Lit>> {
    if base.len() > 8 || split > 9 {
        return None;
    }
    if at >= regions(base, None, split) {
        return None;
    }
    region_list(alloc, base, None, split, at).ok()
}

/// A region after a set; none where it isn't there or memory was refused.
fn region_after(alloc: Global, base: &[u32], after: &Bits, at: u32) -> Option<List<Lit>> {
    if base.len() > 8 || !is_below(after.len(), base) {
        return None;
    }
    if at >= regions(base, Some(after), 0) {
        return None;
    }
    region_list(alloc, base, Some(after), 0, at).ok()
}

/// Whether a region has just these atoms, in this order, with these signs.
fn is_region(region: Option<List<Lit>>, signs: &[(u32, bool)]) -> bool {
    match region {
        Some(lits) => {
            for (lit, sign) in lits.as_slice().iter().zip(signs.iter()) {
                if lit.atom != sign.0 || lit.positive != sign.1 {
                    return false;
                }
            }
            lits.len() == signs.len()
        }
        None => false,
    }
}

#[test]
fn patterns_begin_with_falsity(rt: HostRuntime) -> Result<(), Fail> {
    let alloc = rt.alloc();
    expect(count_all(&BASE, 2) == Some(4), "four patterns of two atoms")?;
    let first = region_of_all(alloc, &BASE, 2, 0);
    expect(is_region(first, &[(1, false), (2, false)]), "both false")?;
    let second = region_of_all(alloc, &BASE, 2, 1);
    expect(
        is_region(second, &[(1, false), (2, true)]),
        "the later true",
    )?;
    let third = region_of_all(alloc, &BASE, 2, 2);
    expect(
        is_region(third, &[(1, true), (2, false)]),
        "the earlier true",
    )?;
    let last = region_of_all(alloc, &BASE, 2, 3);
    expect(is_region(last, &[(1, true), (2, true)]), "both true")
}

#[test]
fn a_short_base_has_few_patterns(rt: HostRuntime) -> Result<(), Fail> {
    let alloc = rt.alloc();
    expect(
        count_all(&BASE, 0) == Some(1),
        "one region without literals",
    )?;
    let whole = region_of_all(alloc, &BASE, 0, 0);
    expect(is_region(whole, &[]), "the region without literals")?;
    expect(
        count_all(&BASE, 9) == Some(16),
        "as many as the base allows",
    )?;
    expect(count_all(&[], 9) == Some(1), "one of the empty base")
}

#[test]
fn the_last_false_atom_comes_first(rt: HostRuntime) -> Result<(), Fail> {
    let alloc = rt.alloc();
    let after = set(alloc, &[2])?;
    expect(count_after(&BASE, &after) == Some(3), "three false atoms")?;
    let first = region_after(alloc, &BASE, &after, 0);
    let signs = [(1, false), (2, true), (4, false), (7, true)];
    expect(is_region(first, &signs), "the last atom true")?;
    let second = region_after(alloc, &BASE, &after, 1);
    let signs = [(1, false), (2, true), (4, true)];
    expect(is_region(second, &signs), "the third atom true")?;
    let third = region_after(alloc, &BASE, &after, 2);
    expect(is_region(third, &[(1, true)]), "the first atom true")?;
    let none = region_after(alloc, &BASE, &after, 3);
    expect(!is_region(none, &[]), "no fourth region")
}

#[test]
fn nothing_comes_after_the_full_base(rt: HostRuntime) -> Result<(), Fail> {
    let alloc = rt.alloc();
    let full = set(alloc, &BASE)?;
    expect(count_after(&BASE, &full) == Some(0), "the full base")?;
    let empty = set(alloc, &[])?;
    expect(count_after(&BASE, &empty) == Some(4), "the empty set")?;
    expect(count_after(&[], &empty) == Some(0), "the empty base")
}
