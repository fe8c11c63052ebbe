//! What a member does.

use asp_entry::Entry;

/// An event of a living member, which is named by its number.
#[derive(Debug, Drop)]
pub enum Event {
    /// The member sees the whole history.
    Look(u32),
    /// The member adds an entry that is justified by what it has seen.
    Add(u32, Entry),
    /// A new member begins, with the next number, and has seen what this one has.
    Fork(u32),
    /// The member lives no longer.
    End(u32),
}
