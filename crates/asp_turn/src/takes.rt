//! Taking the value and giving it back.
ghost use Rattle.std.specs.Prelude.{◌≡◌, ◌+◌, ◌≤◌, Some, IfOk, IfSome, IfNone, IsSomeAnd};
ghost use mathlib.Core.List.{IsPrefix};
ghost use Rattle.asp_turn.specs.Seats.{IsSeatOf, HoldsNothing, StandsFor, seen_by, world_of, world_of_turn, taken_story, refused_takes};

use crate::kept::Kept;
use crate::plays::{Attempt, Give};
use crate::seat::Seat;
use crate::turn::{Board, Turn};
use std::alloc::{AllocError as NoMemory, Global};
use std::snapshot::Snapshot;
use std::sync::Wait;

impl<V: Kept> Turn<V> {
    /// A turn over the value, which is at home, and its first seat, which has seen the value's story. Where there is no
    /// memory the value is given up.
    pub fn new(alloc: Global, value: V) -> Result<(Turn<V>, Seat<V>), NoMemory>
        ensures own { IfOk result (λ t. IsSeatOf t.0 t.1) }
        ensures turn { IfOk result (λ t. world_of_turn V.world t.0 ≡ V.world value) }
        ensures world { IfOk result (λ t. StandsFor t.1 (V.world value)) }
        ensures seen { IfOk result (λ t. seen_by t.1 ≡ V.story value) }
        ensures free { IfOk result (λ t. HoldsNothing t.1) }
        ensures refused { IfOk result (λ t. refused_takes t.1 ≡ 0) }
    {
        let about = Snapshot::of(&value);
        let mut slots = Vec::new(alloc);
        slots.push(Some(value))?;
        let Ok((table, place)) = Board::<V>::new(alloc, &[0], slots, &about) else {
            return Err(NoMemory);
        };
        Ok((Turn { table }, Seat { place }))
    }

    /// Takes the value if no other seat holds it. `None` comes only from a step of this seat that found the word 1, and
    /// that step is counted.
    pub fn try_take(&self, seat: &mut Seat<V>) -> Option<V>
        requires own { IsSeatOf self.now seat.old }
        requires free { HoldsNothing seat.old }
        ensures own { IsSeatOf self.now seat.new }
        ensures world { world_of seat.new ≡ world_of seat.old }
        ensures seen { seen_by seat.new ≡ seen_by seat.old }
        ensures stands { IfSome result (λ value. StandsFor seat.old (V.world value)) }
        ensures begins { IfSome result (λ value. IsPrefix (seen_by seat.old) (V.story value)) }
        ensures holds { IfSome result (λ value. taken_story seat.new ≡ Some (V.story value)) }
        ensures taken { IfSome result (λ value. refused_takes seat.new ≡ refused_takes seat.old) }
        ensures refused { IfNone result (refused_takes seat.new ≡ refused_takes seat.old + 1) }
        ensures free { IfNone result (HoldsNothing seat.new) }
    {
        let found = self
            .table
            .shared
            .compare_exchange::<Attempt<V>>(&mut seat.place, 0, 0, 1);
        if found == 0 {
            self.table.shared.exchange(&mut seat.place, 0, None)
        } else {
            None
        }
    }

    /// Takes the value, and waits while another seat holds it. Who comes next among those that wait is left open.
    pub fn take<R: Wait>(&self, rt: &R, seat: &mut Seat<V>) -> V
        requires own { IsSeatOf self.now seat.old }
        requires free { HoldsNothing seat.old }
        ensures own { IsSeatOf self.now seat.new }
        ensures world { world_of seat.new ≡ world_of seat.old }
        ensures seen { seen_by seat.new ≡ seen_by seat.old }
        ensures stands { StandsFor seat.old (V.world result) }
        ensures begins { IsPrefix (seen_by seat.old) (V.story result) }
        ensures holds { taken_story seat.new ≡ Some (V.story result) }
        ensures refused { refused_takes seat.old ≤ refused_takes seat.new }
    {
        for _ in rt.forever() {
            if let Some(value) = self.try_take(seat) {
                return value;
            }
            self.table.shared.park(rt, 0, 1);
        }
        unreachable!()
    }

    /// Gives the value back. Its story begins with the story with which it was taken, and the seat has then seen all of it.
    pub fn give(&self, seat: &mut Seat<V>, value: V)
        requires own { IsSeatOf self.now seat.old }
        requires world { StandsFor seat.old (V.world value) }
        requires grown { IsSomeAnd (taken_story seat.old) (λ taken. IsPrefix taken (V.story value)) }
        ensures own { IsSeatOf self.now seat.new }
        ensures world { world_of seat.new ≡ world_of seat.old }
        ensures seen { seen_by seat.new ≡ V.story value }
        ensures free { HoldsNothing seat.new }
        ensures refused { refused_takes seat.new ≡ refused_takes seat.old }
    {
        self.table.shared.exchange(&mut seat.place, 0, Some(value));
        self.table.shared.store::<Give<V>>(&mut seat.place, 0, 0);
        // One that sleeps in `take` tries again, and wakes the next when it gives.
        self.table.shared.wake_one(0);
    }

    /// Ends the turn: takes the value as `take` does, and keeps it.
    pub fn close<R: Wait>(self, rt: &R, mut seat: Seat<V>) -> V
        requires own { IsSeatOf self seat }
        requires free { HoldsNothing seat }
        ensures stands { StandsFor seat (V.world result) }
        ensures begins { IsPrefix (seen_by seat) (V.story result) }
    {
        self.take(rt, &mut seat)
    }
}
