//! One worker's history with its layers.
ghost use Rattle.std.specs.Prelude.{◌≡◌, ◌-◌, ◌≤◌, ◌+◌, ℕ, length, IsTrue, Ok, Err, IfOk};
ghost use Rattle.asp_bits.specs.Places.{true_places};
ghost use Rattle.asp_defs.specs.declared.faults.Give.TheVariants as gives;
ghost use Rattle.asp_defs.specs.declared.faults.Unknown.{Unknown};
ghost use Rattle.asp_defs.specs.Games.{base, is_subset, level_count, IsValid};
ghost use Rattle.asp_store.specs.Shelves.{IsHolding};
ghost use Rattle.asp_store.specs.Stores.{most_cells};
ghost use Rattle.asp_team.specs.States.{IsNew, TeamGoesOn, HasSpent, evidence_of, stored};
ghost use Rattle.asp_team.specs.Works.{IsAtWork};

use crate::sixteen::Sixteen;
use asp_bits::Bits;
use asp_defs::{Game, Give, NoMemory};
use asp_store::{Own, Shelf, Store};
use std::alloc::Global;
use std::marker::Model;
use std::sync::Arc;

/// A game's history with one worker for each level, all on one thread.
///
/// Contracts see it as its game, the budget of each search, the cells, the history, and how often a search of a kind and level
/// spent the budget or an addition of a level was refused, as counts of 64 bits that stand still at their end.
#[derive(Drop)]
pub struct Single {
    shelf: Own,
    layers: Sixteen,
}

impl Model for Single {
    ghost use Rattle.asp_defs.specs.Shown.{Evidence};
    ghost use Rattle.asp_team.specs.States.{evidence_of};
    ghost use Rattle.asp_team.specs.Works.{IsAtWork};

    ghost Value = { Evidence };

    ghost view = { λ single. evidence_of single.shelf single.layers };

    ghost invariant = { λ single. IsAtWork single.shelf single.layers };
}

impl Single {
    /// An empty history. Each search places at most `budget` literals, and the entries take at most `cells` cells. `NoMemory`:
    /// memory was refused.
    pub fn new(alloc: Global, game: Arc<Game>, budget: u64, cells: u64) -> Result<Single, NoMemory>
        requires valid { IsValid game.value }
        requires limit { cells ≤ most_cells }
        ensures { IfOk result (λ single. IsNew game.value budget cells single) }
    {
        let store = Store::new(alloc, Arc::try_clone(&game)?, cells)?;
        Ok(Single {
            shelf: Own::new(store),
            layers: Sixteen::new(alloc, &game, budget)?,
        })
    }

    /// The store of the history.
    pub fn store(&self) -> &Store
        ensures { result.now ≡ stored self.now }
    {
        self.shelf.store()
    }
}

/// The position of an entry that holds an outer move of a level: one that is there, or the layers' answer.
fn ask(
    alloc: Global,
    shelf: &mut Own,
    layers: &mut Sixteen,
    level: u32,
    outer: &Bits,
) -> Result<u32, Give>
    requires work { IsAtWork shelf.old layers.old }
    requires first { 1 ≤ level }
    requires last { level ≤ level_count layers.old.game + 1 }
    requires places { length outer.now ≡ length layers.old.game.bases.atoms }
    requires outer { IsTrue (is_subset (true_places outer.now) (base layers.old.game (level - 1))) }
    ensures work { IsAtWork shelf.new layers.new }
    ensures goes_on { TeamGoesOn (evidence_of shelf.old layers.old) (evidence_of shelf.new layers.new) }
    ensures held { (at : ℕ) → result ≡ Ok at → IsHolding shelf.new.seen level (true_places outer.now) at }
    ensures spent { (unknown : Unknown) → result ≡ Err (gives.Spent unknown)
        → HasSpent (evidence_of shelf.old layers.old) (evidence_of shelf.new layers.new) unknown }
{
    if let Some(at) = shelf.look(level, outer) {
        return Ok(at);
    }
    layers.ask_at(alloc, shelf, level, outer)
}

/// The verdict on an outer move of a level, from 1 to n + 1: the position of an entry of the level that holds it.
///
/// `Spent`: a search of the level or a later one placed as many literals as the budget allows, or the cells didn't suffice for
/// an entry. `NoMemory`: memory was refused. After both the history is legal and begins with the one before, and more may be
/// asked.
pub fn node_single(alloc: Global, team: &mut Single, level: u32, outer: &Bits) -> Result<u32, Give>
    requires first { 1 ≤ level }
    requires last { level ≤ level_count team.old.game + 1 }
    requires places { length outer.now ≡ length team.old.game.bases.atoms }
    requires outer { IsTrue (is_subset (true_places outer.now) (base team.old.game (level - 1))) }
    ensures goes_on { TeamGoesOn team.old team.new }
    ensures held { (at : ℕ) → result ≡ Ok at → IsHolding team.new.history level (true_places outer.now) at }
    ensures spent { (unknown : Unknown) → result ≡ Err (gives.Spent unknown) → HasSpent team.old team.new unknown }
{
    ask(alloc, &mut team.shelf, &mut team.layers, level, outer)
}
