//! What a thread takes the value with.
ghost use Rattle.std.specs.Prelude.{◌≡◌, true, is_some};
ghost use Rattle.asp_turn.specs.Rule.{in_hand};

use crate::kept::Kept;
use crate::view::View;

pub(crate) type Place<V> = atomic_table::Seat<
    Option<V>,
    View<<V as Kept>::World, <V as Kept>::Item>,
>;

/// A seat at a turn: a token without bytes. It carries the world, the story as far as it was seen, and a count of
/// refused takes. A seat that is dropped while it holds leaves the turn taken for ever.
#[derive(Drop)]
pub struct Seat<V: Kept> {
    pub(crate) place: Place<V>,
    ghost live: { is_some place.me.0.world ≡ true },
    ghost hand: { place.me.1 ≡ in_hand place.me.0.taken },
}
