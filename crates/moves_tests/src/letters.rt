//! Sets of atoms and literals that are written as letters.

use asp_defs::{Lit, NoMemory};
use std::alloc::Global;

/// The mask of some letters, counted from `a`.
pub fn letters(text: &str) -> u32 {
    let mut mask = 0;
    for byte in text.as_bytes() {
        if byte.is_ascii_lowercase() {
            mask |= 1 << (*byte - b'a');
        }
    }
    mask
}

/// The masks of sets of letters with commas between them, ascending.
pub fn sets(alloc: Global, text: &str) -> Result<Vec<u32>, NoMemory> {
    let mut masks = Vec::new(alloc);
    for set in text.split(',') {
        if !set.is_empty() {
            masks.push(letters(set))?;
        }
    }
    masks.sort_unstable();
    Ok(masks)
}

/// The literals of letters that are true and of others that are false.
pub fn region(alloc: Global, held: &str, out: &str) -> Result<Vec<Lit>, NoMemory> {
    let mut region = Vec::new(alloc);
    for (text, positive) in [(held, true), (out, false)] {
        for byte in text.as_bytes() {
            region.push(Lit {
                atom: u32::from(byte.saturating_sub(b'a')),
                positive,
            })?;
        }
    }
    Ok(region)
}
