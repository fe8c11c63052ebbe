//! The store of a history.
ghost use Rattle.std.specs.Prelude.{◌≡◌, ◌≤◌, ◌<◌, ℕ, [], length, IsTrue, Some, Ok, Err, IfOk, OnErr};
ghost use Rattle.std.specs.List.{slice_get};
ghost use Rattle.asp_bits.specs.Places.{true_places};
ghost use Rattle.asp_defs.specs.declared.faults.Unknown.{Unknown};
ghost use Rattle.asp_defs.specs.Games.{IsValid};
ghost use Rattle.asp_defs.specs.Entries.{is_entry};
ghost use Rattle.asp_defs.specs.History.{is_justified, is_legal, cells};
ghost use Rattle.asp_store.specs.declared.added.Added.TheVariants.{Known, New};
ghost use Rattle.asp_store.specs.declared.added.AddFault.TheVariants as faults;
ghost use Rattle.asp_store.specs.Histories.{first_held};
ghost use Rattle.asp_store.specs.Stores.{most_cells, IsFull, IsAppended, IsKnown};

use crate::added::{AddFault, Added};
use crate::positions::{append, first_of, no_positions};
use asp_bits::Bits;
use asp_defs::{Game, Kind, NoMemory, Unknown};
use asp_entry::{Entry, places};
use std::alloc::Global;
use std::marker::Model;
use std::sync::Arc;

/// The history of a game's entries, of which each is justified by those before it.
///
/// Contracts see it as its game, the cells that its entries may take, and the history.
#[derive(Drop)]
pub struct Store {
    game: Arc<Game>,
    allowed: u64,
    kept: u64,
    entries: Vec<Entry>,
    // by levels from 0: the positions of the level's entries, ascending
    levels: Vec<Vec<u32>>,
}

impl Model for Store {
    ghost use Rattle.std.specs.Prelude.{map};
    ghost use Rattle.asp_store.specs.Histories.{StoreState};
    ghost use Rattle.asp_store.specs.Stores.{IsKept};

    ghost Value = { StoreState };

    ghost view = { λ s. record { game = s.game.value; allowed = s.allowed; history = s.entries.items } };

    ghost invariant = { λ s. IsKept s.game.value s.allowed s.kept s.entries.items (map (λ v. v.items) s.levels.items) };
}

impl Store {
    /// The empty history of a game, whose entries may take so many cells. `NoMemory`: memory was refused.
    pub fn new(alloc: Global, game: Arc<Game>, cells: u64) -> Result<Store, NoMemory>
        requires valid { IsValid game.value }
        requires limit { cells ≤ most_cells }
        ensures { IfOk result (λ store. store ≡ record { game = game.value; allowed = cells; history = [] }) }
    {
        let levels = no_positions(alloc, game.quants.len() as u32 + 2)?;
        Ok(Store {
            game,
            allowed: cells,
            kept: 0,
            entries: Vec::new(alloc),
            levels,
        })
    }

    /// The game.
    pub fn game(&self) -> &Game
        ensures game { result.now ≡ self.now.game }
        ensures valid { IsValid self.now.game }
    {
        &self.game
    }

    /// How many entries the history has.
    pub fn len(&self) -> u32
        ensures count { result ≡ length self.now.history }
        ensures legal { IsTrue (is_legal self.now.game self.now.history) }
        ensures within { cells self.now.history ≤ self.now.allowed }
    {
        self.entries.len() as u32
    }

    /// The entry at a position.
    pub fn entry(&self, at: u32) -> &Entry
        requires { at < length self.now.history }
        ensures entry { slice_get self.now.history at ≡ Some result.now }
        ensures legal { IsTrue (is_legal self.now.game self.now.history) }
    {
        &self.entries[at as usize]
    }

    /// The position of the first entry of a level that holds an interpretation of the game's atoms, or none where none does.
    pub fn look(&self, level: u32, set: &Bits) -> Option<u32>
        requires { length set.now ≡ length self.now.game.bases.atoms }
        ensures first { result ≡ first_held self.now.history level (true_places set.now) }
        ensures legal { IsTrue (is_legal self.now.game self.now.history) }
    {
        if level as usize >= self.levels.len() {
            return None;
        }
        let positions = &self.levels[level as usize];
        first_of(&self.entries, positions.as_slice(), set)
    }

    /// Adds an entry that the history justifies, unless an entry of its level holds its seed. `Spent`: none does, and its cells
    /// and those of the history are more than are allowed. `NoMemory`: memory was refused. After both nothing has changed, and
    /// the entry is given up.
    pub fn add(&mut self, alloc: Global, entry: Entry) -> Result<Added, AddFault>
        requires formed { IsTrue (is_entry self.old.game entry) }
        requires justified { IsTrue (is_justified self.old.game self.old.history entry) }
        ensures known { (at : ℕ) → result ≡ Ok (Known at) → IsKnown self.old self.new entry at }
        ensures added { (at : ℕ) → result ≡ Ok (New at) → IsAppended self.old self.new entry at }
        ensures spent { (u : Unknown) → result ≡ Err (faults.Spent u) → IsFull self.old entry u }
        ensures refused { OnErr result (self.new ≡ self.old) }
        ensures legal { IsTrue (is_legal self.new.game self.new.history) }
        ensures valid { IsValid self.old.game }
        ensures game { self.new.game ≡ self.old.game }
        ensures allowed { self.new.allowed ≡ self.old.allowed }
    {
        let count = self.game.bases.atoms.len() as u32;
        let seed = places(alloc, entry.seed.as_slice(), count)?;
        if let Some(at) = self.look(entry.level, &seed) {
            return Ok(Added::Known(at));
        }
        let cost = entry.cost();
        if self.allowed - self.kept < cost {
            return Err(AddFault::Spent(Unknown {
                kind: Kind::Store,
                level: entry.level,
                budget: self.allowed,
            }));
        }
        let at = self.len();
        append(&mut self.entries, &mut self.levels, entry)?;
        self.kept += cost;
        Ok(Added::New(at))
    }
}
