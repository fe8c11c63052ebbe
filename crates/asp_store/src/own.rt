//! A store that one worker has for itself.
ghost use Rattle.std.specs.Prelude.{◌≡◌, ◌≢◌, ℕ, length, false};
ghost use Rattle.asp_bits.specs.Places.{true_places};
ghost use Rattle.asp_defs.specs.History.{is_held};
ghost use Rattle.asp_store.specs.declared.shelf.Look.TheVariants as looks;
ghost use Rattle.asp_store.specs.Shelves.{opened, store_of, GoesOn, IsHolding, Rose, refusals_at};

use crate::added::{AddFault, Added};
use crate::shelf::{Look, Shelf};
use crate::store::Store;
use asp_bits::Bits;
use asp_defs::NoMemory;
use asp_entry::Entry;
use std::alloc::Global;
use std::marker::Model;

/// As many counts as a game has levels at most, with its constraint part.
const LEVELS: usize = 17;

/// A store of one worker, which sees the whole history and never finds it busy.
#[derive(Drop)]
pub struct Own {
    store: Store,
    refusals: [u64; LEVELS],
}

impl Model for Own {
    ghost use Rattle.asp_store.specs.Shelves.{ShelfState, own_of};

    ghost Value = { ShelfState };

    ghost view = { λ own. own_of own.store own.refusals };
}

impl Own {
    /// The store as the only worker knows it: all of it is seen, and nothing was refused yet.
    pub fn new(store: Store) -> Own
        ensures { result ≡ opened store }
    {
        Own {
            store,
            refusals: [0; LEVELS],
        }
    }

    /// The store, all of which was seen.
    pub fn store(&self) -> &Store
        ensures seen { result.now ≡ store_of self.now }
        ensures looks { self.now.refused_looks ≡ 0 }
    {
        &self.store
    }
}

impl Shelf for Own {
    ghost state = { λ own. own };

    fn look(&mut self, level: u32, set: &Bits) -> Option<u32> {
        self.store.look(level, set)
    }

    fn try_look(&mut self, level: u32, set: &Bits) -> Look
        requires { length set.now ≡ length self.old.game.bases.atoms }
        ensures never_busy { result ≢ looks.Busy }
        ensures goes_on { GoesOn self.old self.new }
        ensures refusals { (l : ℕ) → refusals_at self.new l ≡ refusals_at self.old l }
        ensures found { (at : ℕ) → result ≡ looks.Entry at → IsHolding self.new.seen level (true_places set.now) at }
        ensures absent { result ≡ looks.Absent → is_held self.new.seen level (true_places set.now) ≡ false }
        ensures rose { result ≡ looks.Busy → Rose self.old.refused_looks self.new.refused_looks }
        ensures seen { result ≡ looks.Busy → self.new.seen ≡ self.old.seen }
    {
        if let Some(at) = self.store.look(level, set) {
            return Look::Entry(at);
        }
        Look::Absent
    }

    fn copy(&mut self, alloc: Global, at: u32) -> Result<Entry, NoMemory> {
        self.store.entry(at).copy(alloc)
    }

    fn add(&mut self, alloc: Global, entry: Entry) -> Result<Added, AddFault> {
        let level = entry.level as usize;
        match self.store.add(alloc, entry) {
            Err(AddFault::Spent(unknown)) => {
                self.refusals[level - 1] = self.refusals[level - 1].saturating_add(1);
                Err(AddFault::Spent(unknown))
            }
            answer => answer,
        }
    }
}
