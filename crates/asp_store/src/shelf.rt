//! The trait of a store as one worker knows it.
ghost use Rattle.std.specs.Prelude.{◌≡◌, ◌⊎◌, ◌<◌, ℕ, false, length, IsTrue, Some, None, Ok, Err, IfOk};
ghost use Rattle.asp_bits.specs.Places.{true_places};
ghost use Rattle.asp_defs.specs.declared.faults.Unknown.{Unknown};
ghost use Rattle.asp_defs.specs.Entries.{is_entry};
ghost use Rattle.asp_defs.specs.History.{is_held, is_justified};
ghost use Rattle.asp_store.specs.declared.added.Added.TheVariants.{Known, New};
ghost use Rattle.asp_store.specs.declared.added.AddFault.TheVariants as faults;
ghost use Rattle.asp_store.specs.declared.shelf.Look.TheVariants as looks;
ghost use Rattle.asp_store.specs.Shelves.{ShelfState, GoesOn, IsHolding, StandsAt, IsRefused, Rose, refusals_at};

use crate::added::{AddFault, Added};
use asp_bits::Bits;
use asp_defs::NoMemory;
use asp_entry::Entry;
use std::alloc::Global;

/// What a look that doesn't wait answers.
#[derive(Debug, Clone, Copy, PartialEq, Eq)]
pub enum Look {
    /// The position of an entry that holds the interpretation.
    Entry(u32),
    /// No entry of the level does.
    Absent,
    /// Another worker has the store.
    Busy,
}

/// A history as one worker knows it. The worker has seen a beginning of it, which only grows, and each call may show more.
pub trait Shelf {
    /// The game and the cells, which never change; how often a look was refused, and an addition at each level; and the
    /// history as far as it was seen. No count falls. That of refused looks may rise in each call, which may have to wait.
    ghost state: { Self → ShelfState };

    /// The position of an entry of a level that holds an interpretation, or none where none does.
    fn look(&mut self, level: u32, set: &Bits) -> Option<u32>
        requires { length set.now ≡ length (state self.old).game.bases.atoms }
        ensures goes_on { GoesOn (state self.old) (state self.new) }
        ensures refusals { (l : ℕ) → refusals_at (state self.new) l ≡ refusals_at (state self.old) l }
        ensures found { (at : ℕ) → result ≡ Some at → IsHolding (state self.new).seen level (true_places set.now) at }
        ensures none { result ≡ None → is_held (state self.new).seen level (true_places set.now) ≡ false };

    /// The same without waiting. `Busy` is answered only where the count of refused looks rose, and then nothing more was seen.
    fn try_look(&mut self, level: u32, set: &Bits) -> Look
        requires { length set.now ≡ length (state self.old).game.bases.atoms }
        ensures goes_on { GoesOn (state self.old) (state self.new) }
        ensures refusals { (l : ℕ) → refusals_at (state self.new) l ≡ refusals_at (state self.old) l }
        ensures found { (at : ℕ) → result ≡ looks.Entry at → IsHolding (state self.new).seen level (true_places set.now) at }
        ensures absent { result ≡ looks.Absent → is_held (state self.new).seen level (true_places set.now) ≡ false }
        ensures rose { result ≡ looks.Busy → Rose (state self.old).refused_looks (state self.new).refused_looks }
        ensures seen { result ≡ looks.Busy → (state self.new).seen ≡ (state self.old).seen };

    /// A copy of an entry that was seen. `NoMemory`: memory was refused.
    fn copy(&mut self, alloc: Global, at: u32) -> Result<Entry, NoMemory>
        requires { at < length (state self.old).seen }
        ensures goes_on { GoesOn (state self.old) (state self.new) }
        ensures refusals { (l : ℕ) → refusals_at (state self.new) l ≡ refusals_at (state self.old) l }
        ensures entry { IfOk result (λ entry. StandsAt (state self.old).seen entry at) };

    /// Adds an entry that is justified by what was seen, unless an entry of its level holds its seed. `Spent`: none does, the
    /// cells don't suffice, and the count of refused additions of its level rose. `NoMemory`: memory was refused.
    fn add(&mut self, alloc: Global, entry: Entry) -> Result<Added, AddFault>
        requires formed { IsTrue (is_entry (state self.old).game entry) }
        requires justified { IsTrue (is_justified (state self.old).game (state self.old).seen entry) }
        ensures goes_on { GoesOn (state self.old) (state self.new) }
        ensures refusals { (l : ℕ) → (refusals_at (state self.new) l ≡ refusals_at (state self.old) l) ⊎ ((l ≡ entry.level) × ((u : Unknown) × (result ≡ Err (faults.Spent u)))) }
        ensures known { (at : ℕ) → result ≡ Ok (Known at) → IsHolding (state self.new).seen entry.level entry.seed at }
        ensures added { (at : ℕ) → result ≡ Ok (New at) → StandsAt (state self.new).seen entry at }
        ensures spent { (u : Unknown) → result ≡ Err (faults.Spent u) → IsRefused (state self.old) (state self.new) entry u };
}
