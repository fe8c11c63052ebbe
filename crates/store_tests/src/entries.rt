//! Entries.
ghost use Rattle.std.specs.Prelude.{◌≡◌, true, [], IsTrue, IfOk};
ghost use Rattle.asp_entry.specs.Cubes.{lits_ascend};
ghost use Rattle.store_tests.specs.Entries.{entry_of, level_true};

use crate::named::Named;
use asp_defs::{List, Lit, NoMemory};
use asp_entry::{Cube, Entry};
use std::alloc::Global;

fn made(
    alloc: Global,
    level: u32,
    cube: &[Lit],
    verdict: bool,
    seed: &[u32],
) -> Result<Entry, NoMemory>
    requires { IsTrue (lits_ascend cube.now) }
    ensures { IfOk result (λ entry. entry ≡ record { level = level; cube = cube.now; verdict = verdict; seed = seed.now }) }
{
    Ok(Entry {
        level,
        cube: Cube::from_lits(alloc, cube)?,
        verdict,
        seed: List::from_slice(alloc, seed)?,
    })
}

/// The literal of an atom.
fn lit(atom: u32, positive: bool) -> Lit
    ensures { result ≡ record { atom = atom; positive = positive } }
{
    Lit { atom, positive }
}

/// The entry.
pub fn entry(alloc: Global, named: Named) -> Result<Entry, NoMemory>
    ensures { IfOk result (λ entry. entry ≡ entry_of named) }
{
    match named {
        Named::WithoutA => made(alloc, 2, &[lit(0, false)], true, &[]),
        Named::WithoutB => made(alloc, 2, &[lit(1, false)], true, &[0]),
        Named::Neither => made(alloc, 2, &[lit(0, false), lit(1, false)], true, &[]),
        Named::OnlyB => made(alloc, 2, &[lit(0, false)], true, &[1]),
        Named::Both => made(alloc, 2, &[lit(0, true), lit(1, true)], false, &[0, 1]),
    }
}

/// The entry of a level that says that all is true.
pub fn all_true(alloc: Global, level: u32) -> Entry
    ensures { result ≡ level_true level }
{
    Entry {
        level,
        cube: Cube::new(alloc),
        verdict: true,
        seed: List::new(alloc),
    }
}
