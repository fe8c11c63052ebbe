//! Cubes whose literals are positive on even atoms and negative on odd ones, so that each holds the set of all even
//! atoms.
use asp_bits::Bits;
use asp_defs::{List, Lit, NoMemory};
use asp_entry::{Cube, Entry};
use bases_tests::rows::expect;
use cube_tests::holding::{do_ascend, is_held};
use std::alloc::Global;
use std::test::Fail;

/// The literals on these atoms.
fn lits(alloc: Global, atoms: &[u32]) -> Result<Vec<Lit>, NoMemory> {
    let mut lits = Vec::new(alloc);
    for atom in atoms {
        lits.push(Lit {
            atom: *atom,
            positive: *atom % 2 == 0,
        })?;
    }
    Ok(lits)
}

/// The cube of the literals on these atoms; none where they don't ascend.
fn cube(alloc: Global, atoms: &[u32]) -> Option<Cube> {
    let lits = lits(alloc, atoms).ok()?;
    if !do_ascend(lits.as_slice()) {
        return None;
    }
    Cube::from_lits(alloc, lits.as_slice()).ok()
}

/// Whether the cube has just the literals on these atoms.
fn has_lits(cube: &Cube, atoms: &[u32]) -> bool {
    let lits = cube.lits();
    for (lit, atom) in lits.iter().zip(atoms.iter()) {
        if lit.atom != *atom || lit.positive != (*atom % 2 == 0) {
            return false;
        }
    }
    lits.len() == atoms.len()
}

/// Above all atoms of the cubes.
const PLACES: u32 = 3_000;

/// The even atoms, but for one place that is turned.
fn even_atoms(alloc: Global, turned: Option<u32>) -> Result<Bits, NoMemory> {
    let mut set = Bits::new(alloc, PLACES)?;
    for place in 0..PLACES {
        if place < set.len() {
            set.set(place, (place % 2 == 0) != (turned == Some(place)));
        }
    }
    Ok(set)
}

/// Whether the cube holds the even atoms, with one place turned where one is given; none where memory is refused.
fn holds(alloc: Global, cube: &Cube, turned: Option<u32>) -> Option<bool> {
    let set = even_atoms(alloc, turned).ok()?;
    Some(is_held(cube, &set))
}

#[test]
fn the_empty_cube_holds_each_set(rt: HostRuntime) -> Result<(), Fail> {
    let cube = Cube::new(rt.alloc());
    let empty = Bits::new(rt.alloc(), 0)?;
    let right = cube.lits().is_empty() && is_held(&cube, &empty);
    expect(
        right && holds(rt.alloc(), &cube, None) == Some(true),
        "the empty cube",
    )
}

/// A cube, and a place whose turn doesn't matter.
const HOLDING: [(&str, &[u32], u32); 4] = [
    ("4", &[4], 5),
    ("1, 2, 19", &[1, 2, 19], 0),
    ("0 to 7", &[0, 1, 2, 3, 4, 5, 6, 7], 8),
    ("nine of them", &[1, 3, 4, 6, 7, 9, 11, 14, 16], 0),
];

/// Whether the cube holds no set with one of the places turned.
fn holds_none(alloc: Global, cube: &Cube, turned: &[u32]) -> bool {
    for place in turned {
        if holds(alloc, cube, Some(*place)) != Some(false) {
            return false;
        }
    }
    true
}

/// Whether the cube of these literals holds the even atoms, also with the other place turned, and with no other one.
fn is_right(alloc: Global, atoms: &[u32], other: u32) -> bool {
    match cube(alloc, atoms) {
        Some(cube) => {
            has_lits(&cube, atoms)
                && holds(alloc, &cube, None) == Some(true)
                && holds(alloc, &cube, Some(other)) == Some(true)
                && holds_none(alloc, &cube, atoms)
        }
        None => false,
    }
}

fn holding_rows(alloc: Global, rows: &[(&str, &[u32], u32)]) -> Result<(), Fail> {
    for (row, atoms, other) in rows {
        expect(is_right(alloc, atoms, *other), row)?;
    }
    Ok(())
}

#[test]
fn a_cube_holds_the_sets_of_its_literals(rt: HostRuntime) -> Result<(), Fail> {
    holding_rows(rt.alloc(), &HOLDING)
}

/// A name, the literals of two cubes, and those of both.
type Joined = (&'static str, &'static [u32], &'static [u32], &'static [u32]);

const JOINED: [Joined; 7] = [
    ("none and none", &[], &[], &[]),
    ("none and two", &[], &[3, 8], &[3, 8]),
    ("two and none", &[3, 8], &[], &[3, 8]),
    ("none in common", &[0, 3], &[1, 2, 19], &[0, 1, 2, 3, 19]),
    ("two in common", &[2, 5, 6], &[0, 2, 5], &[0, 2, 5, 6]),
    ("all in common", &[1, 2, 3, 4], &[1, 2, 3, 4], &[1, 2, 3, 4]),
    (
        "ten together",
        &[0, 2, 4, 6, 8],
        &[1, 3, 4, 5, 6, 7, 9],
        &[0, 1, 2, 3, 4, 5, 6, 7, 8, 9],
    ),
];

/// Joins the second cube to the first, where both hold the even atoms.
fn join(alloc: Global, first: &mut Cube, second: &Cube) -> bool {
    let Ok(set) = even_atoms(alloc, None) else {
        return false;
    };
    if !is_held(first, &set) || !is_held(second, &set) {
        return false;
    }
    first.join(alloc, second).is_ok()
}

/// Whether the two cubes hold the even atoms, and one joined to the other has the literals of both.
fn is_joined(alloc: Global, row: &Joined) -> bool {
    let Some(mut joined) = cube(alloc, row.1) else {
        return false;
    };
    match cube(alloc, row.2) {
        Some(second) => join(alloc, &mut joined, &second) && has_lits(&joined, row.3),
        None => false,
    }
}

fn join_rows(alloc: Global, rows: &[Joined]) -> Result<(), Fail> {
    for row in rows {
        expect(is_joined(alloc, row), row.0)?;
    }
    Ok(())
}

#[test]
fn joins_cubes(rt: HostRuntime) -> Result<(), Fail> {
    join_rows(rt.alloc(), &JOINED)
}

/// Atoms: the first, how much each comes after the one before, and how many.
type Run = (u32, u32, u32);

/// A name, the atoms of two cubes, and how many both have together.
type Long = (&'static str, Run, Run, usize);

const LONG: [Long; 6] = [
    ("eight", (0, 1, 8), (0, 1, 0), 8),
    ("nine", (0, 1, 9), (3, 2, 2), 9),
    ("1,000, and none of them", (0, 2, 1000), (1, 2, 1000), 2000),
    ("1,000, and some of them", (0, 2, 1000), (0, 3, 1000), 1666),
    ("1,000, and all of them", (0, 3, 1000), (0, 3, 1000), 1000),
    ("none, and 1,000", (0, 1, 0), (0, 3, 1000), 1000),
];

/// The atoms of a run.
fn atoms(alloc: Global, run: Run) -> Result<Vec<u32>, NoMemory> {
    let (first, step, count) = run;
    let mut atoms = Vec::new(alloc);
    let mut atom = first;
    for _ in 0..count {
        atoms.push(atom)?;
        atom = atom.saturating_add(step);
    }
    Ok(atoms)
}

/// The cube of the literals on a run of atoms.
fn long_cube(alloc: Global, run: Run) -> Option<Cube> {
    let Ok(atoms) = atoms(alloc, run) else {
        return None;
    };
    cube(alloc, atoms.as_slice())
}

/// Whether there are so many literals, in their order, each with its atom's truth.
fn are_lits(lits: &[Lit], count: usize) -> bool {
    lits.len() == count
        && do_ascend(lits)
        && lits.iter().all(|lit| lit.positive == (lit.atom % 2 == 0))
}

/// Whether the two cubes hold the even atoms, and one joined to the other has so many literals and holds them too.
fn is_long_joined(alloc: Global, row: &Long) -> bool {
    let Some(mut joined) = long_cube(alloc, row.1) else {
        return false;
    };
    match long_cube(alloc, row.2) {
        Some(second) => {
            join(alloc, &mut joined, &second)
                && are_lits(joined.lits(), row.3)
                && holds(alloc, &joined, None) == Some(true)
                && holds(alloc, &joined, Some(0)) == Some(false)
        }
        None => false,
    }
}

fn long_rows(alloc: Global, rows: &[Long]) -> Result<(), Fail> {
    for row in rows {
        expect(is_long_joined(alloc, row), row.0)?;
    }
    Ok(())
}

#[test]
fn joins_long_cubes(rt: HostRuntime) -> Result<(), Fail> {
    long_rows(rt.alloc(), &LONG)
}

/// A name, the literals of an entry's cube, its seed, and how many cells it has.
type Copied = (&'static str, &'static [u32], &'static [u32], u64);

const COPIED: [Copied; 3] = [
    ("no literals and no seed", &[], &[], 1),
    ("three literals", &[1, 2, 5], &[2, 4], 6),
    ("one literal", &[7], &[0], 3),
];

/// An entry of level 3, whose verdict is whether there are no literals.
fn entry(alloc: Global, atoms: &[u32], seed: &[u32]) -> Option<Entry> {
    let seed = List::from_slice(alloc, seed).ok()?;
    let cube = cube(alloc, atoms)?;
    Some(Entry {
        level: 3,
        cube,
        verdict: atoms.is_empty(),
        seed,
    })
}

/// Whether the entry has what `entry` gave it.
fn has_parts(entry: &Entry, atoms: &[u32], seed: &[u32]) -> bool {
    entry.level == 3
        && entry.verdict == atoms.is_empty()
        && has_lits(&entry.cube, atoms)
        && entry.seed.as_slice() == seed
}

/// Whether an entry costs so many cells, and a copy of it has the same parts.
fn is_copied(alloc: Global, row: &Copied) -> bool {
    let Some(entry) = entry(alloc, row.1, row.2) else {
        return false;
    };
    match entry.copy(alloc) {
        Ok(copied) => entry.cost() == row.3 && has_parts(&copied, row.1, row.2),
        Err(_) => false,
    }
}

fn copy_rows(alloc: Global, rows: &[Copied]) -> Result<(), Fail> {
    for row in rows {
        expect(is_copied(alloc, row), row.0)?;
    }
    Ok(())
}

#[test]
fn copies_entries_and_counts_their_cells(rt: HostRuntime) -> Result<(), Fail> {
    copy_rows(rt.alloc(), &COPIED)
}
