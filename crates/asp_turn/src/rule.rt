//! The rule of the turn's one word and one slot, which each step keeps.
ghost use Rattle.std.specs.Prelude.{Some};
ghost use Rattle.asp_turn.specs.Rule.{Running};
ghost use Rattle.asp_turn.specs.Steps.{seated};

use crate::kept::Kept;
use crate::view::View;
use atomic_table::TableRule;
use std::snapshot::Snapshot;

/// The rule: the running turn. The table is told what the opening value was, since its world is the one world of all seats.
pub struct OneTurn;

impl<V: Kept> TableRule<Option<V>, View<V::World, V::Item>, Snapshot<V>> for OneTurn {
    ghost holds = { λ k. Running V.world V.story (V.world k.value) };

    ghost first = { λ k. seated (Some (V.world k.value)) (V.story k.value) };
}
