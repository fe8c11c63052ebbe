//! Who answers behind the last level.
ghost use Rattle.std.specs.Prelude.{◌≡◌, ◌+◌, ℕ, length, IsTrue, IfOk, Ok, Err};
ghost use Rattle.asp_bits.specs.Places.{true_places};
ghost use Rattle.asp_defs.specs.declared.faults.Give.TheVariants as gives;
ghost use Rattle.asp_defs.specs.declared.faults.Unknown.{Unknown};
ghost use Rattle.asp_defs.specs.Games.{base, is_subset, level_count, IsValid};
ghost use Rattle.asp_defs.specs.History.{is_legal};
ghost use Rattle.asp_store.specs.Shelves.{GoesOn, IsHolding};
ghost use Rattle.asp_node.specs.Causes.{IsStoreSpent};
ghost use Rattle.asp_team.specs.States.{IsFresh};

use asp_bits::Bits;
use asp_defs::{Game, Give, NoMemory};
use asp_entry::Entry;
use asp_eval::evaluate;
use asp_node::{Child, add_entry, true_atoms};
use asp_store::Shelf;
use std::alloc::Global;
use std::marker::Model;
use std::sync::Arc;

/// Answers behind the last level, by the constraints.
#[derive(Drop)]
pub(crate) struct Base {
    game: Arc<Game>,
    budget: u64,
}

impl Model for Base {
    ghost use Rattle.asp_defs.specs.Games.{IsValid};
    ghost use Rattle.asp_node.specs.Children.{ChildState};
    ghost use Rattle.asp_team.specs.States.{base_state};

    ghost Value = { ChildState };

    ghost view = { λ base. base_state base.game.value base.budget };

    ghost invariant = { λ base. IsValid base.game.value };
}

impl Base {
    /// For a game, of which nothing was asked yet. `NoMemory`: memory was refused.
    pub(crate) fn new(game: &Arc<Game>, budget: u64) -> Result<Base, NoMemory>
        requires { IsValid game.now.value }
        ensures { IfOk result (IsFresh game.now.value (level_count game.now.value + 1) budget) }
    {
        let game = Arc::try_clone(game)?;
        Ok(Base { game, budget })
    }
}

/// The level behind the last one.
fn level_behind(game: &Game) -> u32
    requires { IsValid game.now }
    ensures { result ≡ level_count game.now + 1 }
{
    game.quants.len() as u32 + 1
}

/// The value of an outer move behind the last level, as an entry: its position. `Spent`: the cells don't suffice for it.
/// `NoMemory`: memory was refused.
fn judge<S: Shelf>(alloc: Global, shelf: &mut S, game: &Game, set: &Bits) -> Result<u32, Give>
    requires valid { IsValid game.now }
    requires game { (S.state shelf.old).game ≡ game.now }
    requires legal { IsTrue (is_legal (S.state shelf.old).game (S.state shelf.old).seen) }
    requires places { length set.now ≡ length game.now.bases.atoms }
    requires set { IsTrue (is_subset (true_places set.now) (base game.now (level_count game.now))) }
    ensures goes_on { GoesOn (S.state shelf.old) (S.state shelf.new) }
    ensures held { (at : ℕ) → result ≡ Ok at
        → IsHolding (S.state shelf.new).seen (level_count game.now + 1) (true_places set.now) at }
    ensures spent { (unknown : Unknown) → result ≡ Err (gives.Spent unknown)
        → IsStoreSpent (S.state shelf.old) (S.state shelf.new) unknown }
{
    let judged = evaluate(alloc, game, set)?;
    let seed = true_atoms(alloc, set)?;
    let entry = Entry {
        level: level_behind(game),
        cube: judged.cube,
        verdict: judged.verdict,
        seed,
    };
    add_entry(alloc, shelf, entry)
}

impl<S: Shelf> Child<S> for Base {
    ghost state = { λ base. base };

    fn ask(&mut self, alloc: Global, shelf: &mut S, set: &Bits) -> Result<u32, Give> {
        judge(alloc, shelf, &self.game, set)
    }

    fn ask_at(
        &mut self,
        alloc: Global,
        shelf: &mut S,
        _level: u32,
        set: &Bits,
    ) -> Result<u32, Give> {
        judge(alloc, shelf, &self.game, set)
    }
}
