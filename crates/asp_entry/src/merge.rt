//! Two ascending lists of literals as one.
ghost use Rattle.std.specs.Prelude.{◌≡◌, ◌+◌, ◌≤◌, length, IsOk, IfOk};
ghost use Rattle.asp_entry.specs.Cubes.{merged as merged_lits};

use asp_defs::{Lit, NoMemory};
use smallvec::SmallVec;
use std::alloc::Global;

/// The literals of both lists by their atoms, those of one atom once. `NoMemory`: both have more than eight literals
/// together, and memory was refused.
pub(crate) fn merge(
    alloc: Global,
    these: &[Lit],
    those: &[Lit],
) -> Result<SmallVec<Lit, 8>, NoMemory>
    ensures items { IfOk result (λ merged. merged.items ≡ merged_lits these.now those.now) }
    ensures fits { length these.now + length those.now ≤ 8 → IsOk result }
{
    let mut merged: SmallVec<Lit, 8> = SmallVec::new(alloc);
    let mut mine = 0;
    let mut others = 0;
    while mine < these.len() && others < those.len() {
        let first = these[mine];
        let second = those[others];
        if first.atom < second.atom {
            merged.push(first)?;
            mine += 1;
        } else if second.atom < first.atom {
            merged.push(second)?;
            others += 1;
        } else {
            merged.push(first)?;
            mine += 1;
            others += 1;
        }
    }
    merged.extend_from_slice(&these[mine..])?;
    merged.extend_from_slice(&those[others..])?;
    Ok(merged)
}
