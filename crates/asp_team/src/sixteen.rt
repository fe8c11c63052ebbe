//! As many layers as a game can have levels.
ghost use Rattle.std.specs.Prelude.{◌≡◌, ◌-◌, ◌≤◌, ◌+◌, ℕ, length, IsTrue, Ok, Err, IfOk};
ghost use Rattle.asp_bits.specs.Places.{true_places};
ghost use Rattle.asp_defs.specs.declared.faults.Give.TheVariants as gives;
ghost use Rattle.asp_defs.specs.declared.faults.Unknown.{Unknown};
ghost use Rattle.asp_defs.specs.Games.{base, is_subset, level_count, IsValid};
ghost use Rattle.asp_defs.specs.History.{is_legal};
ghost use Rattle.asp_store.specs.Shelves.{GoesOn, IsHolding};
ghost use Rattle.asp_node.specs.Children.{ChildGoesOn, RestsOn};
ghost use Rattle.asp_node.specs.Causes.{IsAskSpent};
ghost use Rattle.asp_team.specs.States.{AreWrapped, IsFresh, IsUnfinished};

use crate::base::Base;
use crate::eight::Eight;
use crate::layer::Layer;
use crate::level::{Level, levels_of};
use asp_bits::Bits;
use asp_defs::{Game, Give, NoMemory};
use asp_node::Child;
use asp_store::Own;
use std::alloc::Global;
use std::marker::Model;
use std::sync::Arc;

/// Sixteen layers round the base, of which the outer ones pass on what they are asked where a game has fewer levels.
#[derive(Drop)]
pub(crate) struct Sixteen {
    layers: Layer<Layer<Layer<Layer<Layer<Layer<Layer<Layer<Eight>>>>>>>>,
}

impl Model for Sixteen {
    ghost use Rattle.asp_node.specs.Children.{ChildState};

    ghost Value = { ChildState };

    ghost view = { λ sixteen. sixteen.layers };
}

impl Sixteen {
    /// For all levels of a game, of which nothing was asked yet. `NoMemory`: memory was refused.
    #[inline(never)]
    pub(crate) fn new(alloc: Global, game: &Arc<Game>, budget: u64) -> Result<Sixteen, NoMemory>
        requires valid { IsValid game.now.value }
        ensures { IfOk result (λ layers. IsFresh game.now.value 1 budget layers) }
    {
        let base = Base::new(game, budget)?;
        let mut levels = levels_of(alloc, game, budget)?;
        let eight = Eight::around(&mut levels, base);
        Ok(Sixteen::around(&mut levels, eight))
    }

    /// Eight layers more, for the next eight of the levels, or for all of them where they are fewer.
    #[inline(never)]
    fn around(levels: &mut Vec<Level>, eight: Eight) -> Sixteen
        requires { IsUnfinished levels.old.items eight }
        ensures { AreWrapped 8 levels.old.items eight levels.new.items result }
    {
        let nine = Layer::around(levels, eight);
        let ten = Layer::around(levels, nine);
        let eleven = Layer::around(levels, ten);
        let twelve = Layer::around(levels, eleven);
        let thirteen = Layer::around(levels, twelve);
        let fourteen = Layer::around(levels, thirteen);
        let fifteen = Layer::around(levels, fourteen);
        Sixteen {
            layers: Layer::around(levels, fifteen),
        }
    }

    /// The position of an entry of a level that holds a move of the level before. `Spent`: a search of the level or a later one
    /// placed as many literals as the budget allows, or the cells didn't suffice for an entry. `NoMemory`: memory was refused.
    #[inline(never)]
    pub(crate) fn ask_at(
        &mut self,
        alloc: Global,
        shelf: &mut Own,
        level: u32,
        set: &Bits,
    ) -> Result<u32, Give>
        requires game { shelf.old.game ≡ self.old.game }
        requires legal { IsTrue (is_legal shelf.old.game shelf.old.seen) }
        requires first { self.old.level ≤ level }
        requires last { level ≤ level_count self.old.game + 1 }
        requires places { length set.now ≡ length self.old.game.bases.atoms }
        requires rests { RestsOn shelf.old.seen self.old }
        requires set { IsTrue (is_subset (true_places set.now) (base self.old.game (level - 1))) }
        ensures goes_on { ChildGoesOn self.old self.new }
        ensures shelf { GoesOn shelf.old shelf.new }
        ensures rests { RestsOn shelf.new.seen self.new }
        ensures held { (at : ℕ) → result ≡ Ok at → IsHolding shelf.new.seen level (true_places set.now) at }
        ensures spent { (unknown : Unknown) → result ≡ Err (gives.Spent unknown)
            → IsAskSpent shelf.old shelf.new self.old self.new unknown }
    {
        self.layers.ask_at(alloc, shelf, level, set)
    }
}
