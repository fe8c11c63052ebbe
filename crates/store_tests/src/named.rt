//! Names of entries.

/// Entries of the constraints over two choices, by their cube and their seed.
#[derive(Clone, Copy)]
pub enum Named {
    /// `[not a]`, {}
    WithoutA,
    /// `[not b]`, {a}
    WithoutB,
    /// `[not a, not b]`, {}
    Neither,
    /// `[not a]`, {b}
    OnlyB,
    /// `[a, b]`, {a, b}: false
    Both,
}
