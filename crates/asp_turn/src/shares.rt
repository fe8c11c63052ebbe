//! What one seat has seen reaches another. None of these calls waits, nor takes memory.
ghost use Rattle.std.specs.Prelude.{◌≡◌};
ghost use mathlib.Core.List.{IsPrefix};
ghost use Rattle.asp_turn.specs.Seats.{IsSeatOf, HoldsNothing, seen_by, world_of, refused_takes};
ghost use Rattle.asp_turn.specs.Steps.{longer};

use crate::kept::Kept;
use crate::plays::{Merge, Settle, Twin};
use crate::seat::Seat;
use crate::turn::Turn;

impl<V: Kept> Turn<V> {
    /// A second seat, as for another thread: it stands for the same world and has seen as much.
    pub fn split(&self, seat: &mut Seat<V>) -> Seat<V>
        requires own { IsSeatOf self.now seat.old }
        requires free { HoldsNothing seat.old }
        ensures own { IsSeatOf self.now seat.new }
        ensures world { world_of seat.new ≡ world_of seat.old }
        ensures seen { seen_by seat.new ≡ seen_by seat.old }
        ensures free { HoldsNothing seat.new }
        ensures refused { refused_takes seat.new ≡ refused_takes seat.old }
        ensures new_own { IsSeatOf self.now result }
        ensures new_world { world_of result ≡ world_of seat.old }
        ensures new_seen { seen_by result ≡ seen_by seat.old }
        ensures new_free { HoldsNothing result }
        ensures new_refused { refused_takes result ≡ 0 }
    {
        let place = self.table.shared.split_seat::<Twin>(&mut seat.place);
        Seat { place }
    }

    /// Takes in what the other seat has seen. The other seat is gone.
    pub fn join(&self, seat: &mut Seat<V>, mut other: Seat<V>)
        requires own { IsSeatOf self.now seat.old }
        requires free { HoldsNothing seat.old }
        requires other_own { IsSeatOf self.now other }
        requires other_free { HoldsNothing other }
        ensures own { IsSeatOf self.now seat.new }
        ensures world { world_of seat.new ≡ world_of seat.old }
        ensures seen { seen_by seat.new ≡ longer (seen_by seat.old) (seen_by other) }
        ensures mine { IsPrefix (seen_by seat.old) (seen_by seat.new) }
        ensures theirs { IsPrefix (seen_by other) (seen_by seat.new) }
        ensures free { HoldsNothing seat.new }
        ensures refused { refused_takes seat.new ≡ refused_takes seat.old }
    {
        self.learn(seat, &mut other);
    }

    /// Takes in what the other seat has seen. The other seat stays as it was.
    pub fn learn(&self, seat: &mut Seat<V>, from: &mut Seat<V>)
        requires own { IsSeatOf self.now seat.old }
        requires free { HoldsNothing seat.old }
        requires from_own { IsSeatOf self.now from.old }
        requires from_free { HoldsNothing from.old }
        ensures own { IsSeatOf self.now seat.new }
        ensures world { world_of seat.new ≡ world_of seat.old }
        ensures seen { seen_by seat.new ≡ longer (seen_by seat.old) (seen_by from.old) }
        ensures mine { IsPrefix (seen_by seat.old) (seen_by seat.new) }
        ensures theirs { IsPrefix (seen_by from.old) (seen_by seat.new) }
        ensures free { HoldsNothing seat.new }
        ensures refused { refused_takes seat.new ≡ refused_takes seat.old }
        ensures from_own { IsSeatOf self.now from.new }
        ensures from_world { world_of from.new ≡ world_of from.old }
        ensures from_seen { seen_by from.new ≡ seen_by from.old }
        ensures from_free { HoldsNothing from.new }
        ensures from_refused { refused_takes from.new ≡ refused_takes from.old }
    {
        let note = self.table.shared.split_seat::<Twin>(&mut from.place);
        self.table.shared.join_seat::<Merge>(&mut seat.place, note);
        self.table.shared.load::<Settle>(&mut seat.place, 0);
    }
}
