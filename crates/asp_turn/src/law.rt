//! The rule of the table, spelled out.
ghost use Rattle.std.specs.Prelude.{◌⊎◌};
ghost use Rattle.std.specs.declared.snapshot.Snapshot.{Snapshot};
ghost use Rattle.asp_turn.specs.Law.{Always, IsFree, IsTaken, RestsAtHome, HasOneHolder, CountsOnlyRefusals};

use crate::kept::Kept;
use crate::rule::OneTurn;
use crate::view::View;
use atomic_table::TableRule;
use std::snapshot::Snapshot;

/// What the table's rule says of every state between two steps, and each call of a turn keeps: where the word is 0, the
/// value is at home and its story begins with what each seat has seen; where it is 1, exactly one seat holds, and each
/// seat has seen a beginning of the story with which that one took the value. And a step that finds the word 0 leaves the
/// seat's count of refused takes, so that it rises only at a step that found the word 1.
pub fn running_turn<V: Kept>()
    ensures word { (k : Snapshot V) → Always (⟦<OneTurn as TableRule<Option<V>, View<V::World, V::Item>, Snapshot<V>>>⟧.holds k) (λ s. IsFree s ⊎ IsTaken s) }
    ensures free { (k : Snapshot V) → Always (⟦<OneTurn as TableRule<Option<V>, View<V::World, V::Item>, Snapshot<V>>>⟧.holds k) (λ s. IsFree s → RestsAtHome V.world V.story (V.world k.value) s) }
    ensures taken { (k : Snapshot V) → Always (⟦<OneTurn as TableRule<Option<V>, View<V::World, V::Item>, Snapshot<V>>>⟧.holds k) (λ s. IsTaken s → HasOneHolder (V.world k.value) s) }
    ensures refused { (k : Snapshot V) → CountsOnlyRefusals (⟦<OneTurn as TableRule<Option<V>, View<V::World, V::Item>, Snapshot<V>>>⟧.holds k) }
{}
