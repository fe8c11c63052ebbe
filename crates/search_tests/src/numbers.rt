//! A series of numbers for random formulas and programs.

/// The next number of a series, and 16 bits of it.
pub fn draw(seed: &mut u32) -> u32 {
    *seed = seed.wrapping_mul(1_664_525).wrapping_add(1_013_904_223);
    *seed >> 16
}
