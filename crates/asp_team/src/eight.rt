//! Eight layers as a type of its own, since the checker's work grows fast with the depth of types.
ghost use Rattle.std.specs.Prelude.{◌≡◌, ℕ};
ghost use Rattle.asp_team.specs.States.{AreWrapped, IsUnfinished};

use crate::base::Base;
use crate::layer::Layer;
use crate::level::Level;
use asp_bits::Bits;
use asp_defs::Give;
use asp_node::Child;
use asp_store::Own;
use std::alloc::Global;
use std::marker::Model;

/// Eight layers round the base.
#[derive(Drop)]
pub(crate) struct Eight {
    layers: Layer<Layer<Layer<Layer<Layer<Layer<Layer<Layer<Base>>>>>>>>,
}

impl Model for Eight {
    ghost use Rattle.asp_node.specs.Children.{ChildState};

    ghost Value = { ChildState };

    ghost view = { λ eight. eight.layers };
}

impl Eight {
    /// Eight layers for the last eight of the levels, or for all of them where they are fewer.
    #[inline(never)]
    pub(crate) fn around(levels: &mut Vec<Level>, base: Base) -> Eight
        requires { IsUnfinished levels.old.items base }
        ensures { AreWrapped 8 levels.old.items base levels.new.items result }
    {
        let one = Layer::around(levels, base);
        let two = Layer::around(levels, one);
        let three = Layer::around(levels, two);
        let four = Layer::around(levels, three);
        let five = Layer::around(levels, four);
        let six = Layer::around(levels, five);
        let seven = Layer::around(levels, six);
        Eight {
            layers: Layer::around(levels, seven),
        }
    }
}

impl Child<Own> for Eight {
    ghost state = { λ eight. eight };

    fn ask(&mut self, alloc: Global, shelf: &mut Own, set: &Bits) -> Result<u32, Give> {
        self.layers.ask(alloc, shelf, set)
    }

    #[inline(never)]
    fn ask_at(
        &mut self,
        alloc: Global,
        shelf: &mut Own,
        level: u32,
        set: &Bits,
    ) -> Result<u32, Give> {
        self.layers.ask_at(alloc, shelf, level, set)
    }
}
