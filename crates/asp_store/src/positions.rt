//! The positions of each level's entries.
ghost use Rattle.std.specs.Prelude.{◌≡◌, ℕ, ◌+◌, ◌^◌, ◌<◌, [], ◌∷◌, ◌++◌, length, map, replicate, get_or, set, IsTrue, IfOk, OnOk, OnErr};
ghost use Rattle.std.specs.List.{find, list_all};
ghost use Rattle.asp_bits.specs.Places.{true_places};
ghost use Rattle.asp_entry.specs.Cubes.{are_lits_below};
ghost use Rattle.asp_store.specs.Stores.{holds_there, is_position, snoc_at};

use asp_bits::Bits;
use asp_defs::NoMemory;
use asp_entry::Entry;
use std::alloc::Global;

/// As many empty lists as `count`. `NoMemory`: memory was refused.
pub(crate) fn no_positions(alloc: Global, count: u32) -> Result<Vec<Vec<u32>>, NoMemory>
    ensures { IfOk result (λ levels. map (λ v. v.items) levels.items ≡ replicate count []) }
{
    let mut levels = Vec::new(alloc);
    for _level in 0..count {
        levels.push(Vec::new(alloc))?;
    }
    Ok(levels)
}

/// The first of some positions whose entry holds an interpretation.
pub(crate) fn first_of(entries: &[Entry], positions: &[u32], set: &Bits) -> Option<u32>
    requires inside { IsTrue (list_all (is_position entries.now) positions.now) }
    requires below { IsTrue (list_all (λ e. are_lits_below (length set.now) e.cube) entries.now) }
    ensures { result ≡ find (holds_there entries.now (true_places set.now)) positions.now }
{
    for at in positions {
        let entry = &entries[*at as usize];
        if entry.cube.holds(set) {
            return Some(*at);
        }
    }
    None
}

/// Appends an entry, and its position to those of its level. `NoMemory`: memory was refused, and both are as before.
pub(crate) fn append(
    entries: &mut Vec<Entry>,
    levels: &mut Vec<Vec<u32>>,
    entry: Entry,
) -> Result<(), NoMemory>
    requires level { entry.level < length levels.old.items }
    requires few { length entries.old.items < 2 ^ 32 }
    ensures entries { OnOk result (entries.new.items ≡ entries.old.items ++ entry ∷ []) }
    ensures levels { OnOk result (map (λ v. v.items) levels.new.items ≡ snoc_at (map (λ v. v.items) levels.old.items) entry.level (length entries.old.items)) }
    ensures no_entry { OnErr result (entries.new.items ≡ entries.old.items) }
    ensures no_position { OnErr result (map (λ v. v.items) levels.new.items ≡ map (λ v. v.items) levels.old.items) }
{
    entries.reserve(1)?;
    let at = entries.len() as u32;
    levels[entry.level as usize].push(at)?;
    entries.push(entry)?;
    Ok(())
}
