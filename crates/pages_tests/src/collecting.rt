//! Pages of lists in a row.
use crate::rows::{expect, has_atoms, set};
use asp_bits::Bits;
use asp_defs::{List, NoMemory};
use asp_pages::{Page, collect};
use std::alloc::Global;
use std::test::Fail;

/// The list of the set of one atom.
fn one(alloc: Global, atom: u32) -> Result<List<Bits>, NoMemory> {
    let mut sets = List::new(alloc);
    sets.push(set(alloc, &[atom])?)?;
    Ok(sets)
}

/// Lists of one, no and two sets: of the atoms 3, 2 and 1.
fn lists(alloc: Global) -> Result<List<List<Bits>>, NoMemory> {
    let mut last = one(alloc, 2)?;
    last.push(set(alloc, &[1])?)?;
    let mut parts = List::new(alloc);
    parts.push(one(alloc, 3)?)?;
    parts.push(List::new(alloc))?;
    parts.push(last)?;
    Ok(parts)
}

/// Whether the page has sets of one atom each, these in this order.
fn has_sets(page: &Page, atoms: &[u32]) -> bool {
    for (set, atom) in page.sets.as_slice().iter().zip(atoms.iter()) {
        if !has_atoms(set, &[*atom]) {
            return false;
        }
    }
    page.sets.len() == atoms.len()
}

#[test]
fn a_page_ends_in_a_list(rt: HostRuntime) -> Result<(), Fail> {
    let alloc = rt.alloc();
    let page = collect(alloc, lists(alloc)?, 2)?;
    expect(has_sets(&page, &[3, 2]) && page.more, "two of three")?;
    let page = collect(alloc, lists(alloc)?, 1)?;
    expect(has_sets(&page, &[3]) && page.more, "one of three")
}

#[test]
fn a_page_has_all(rt: HostRuntime) -> Result<(), Fail> {
    let alloc = rt.alloc();
    let page = collect(alloc, lists(alloc)?, 3)?;
    expect(has_sets(&page, &[3, 2, 1]) && !page.more, "just as many")?;
    let page = collect(alloc, lists(alloc)?, 10_000)?;
    expect(has_sets(&page, &[3, 2, 1]) && !page.more, "fewer")
}

#[test]
fn a_page_of_nothing(rt: HostRuntime) -> Result<(), Fail> {
    let page = collect(rt.alloc(), List::new(rt.alloc()), 1)?;
    expect(has_sets(&page, &[]) && !page.more, "no list")
}
