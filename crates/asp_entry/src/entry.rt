//! The entries of a history.
ghost use Rattle.std.specs.Prelude.{◌≡◌, ◌+◌, length, IfOk};
ghost use Rattle.asp_defs.specs.Entries.{cost as cost_of};

use crate::cube::Cube;
use asp_defs::{List, Lit, NoMemory};
use std::alloc::Global;
use std::marker::Model;

/// The verdict on each outer move of a level that the cube holds, and the move that it was found for.
#[derive(Debug, Drop)]
pub struct Entry {
    /// The level, from 1.
    pub level: u32,
    /// What the outer moves have in common.
    pub cube: Cube,
    /// Whether the program from this level on is true after each of these moves.
    pub verdict: bool,
    /// The outer move that the verdict was found for: its atoms, ascending.
    pub seed: List<u32>,
}

impl Model for Entry {
    ghost use Rattle.asp_defs.specs.Entries.{Entry as EntryValue};

    ghost Value = { EntryValue };

    ghost view = { λ e. record { level = e.level; cube = e.cube; verdict = e.verdict; seed = e.seed } };
}

impl Entry {
    /// What the entry costs in cells: one, and one for each literal of the cube and each atom of the seed.
    pub fn cost(&self) -> u64
        ensures { result ≡ cost_of self.now }
    {
        cells(self.cube.lits(), self.seed.as_slice())
    }

    /// An equal entry. `NoMemory`: memory was refused.
    pub fn copy(&self, alloc: Global) -> Result<Entry, NoMemory>
        ensures { IfOk result (λ entry. entry ≡ self.now) }
    {
        Ok(Entry {
            level: self.level,
            cube: Cube::from_lits(alloc, self.cube.lits())?,
            verdict: self.verdict,
            seed: List::from_slice(alloc, self.seed.as_slice())?,
        })
    }
}

/// One, and one for each literal and each atom. The sum fits: no slice has more than 2^63 bytes, and a literal has
/// eight of them and an atom four, so that it is below 2^62.
fn cells(lits: &[Lit], seed: &[u32]) -> u64
    ensures { result ≡ 1 + (length lits.now + length seed.now) }
{
    1 + (lits.len() as u64 + seed.len() as u64)
}
