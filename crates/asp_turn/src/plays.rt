//! The steps on the table: what each does to the views, and what it tells the seat that makes it.
ghost use Rattle.std.specs.Prelude.{None, []};
ghost use Rattle.asp_turn.specs.Steps.{Attempts, Gives, Settles, seated, resting, informed, longer, shorter};

use crate::kept::Kept;
use crate::view::View;
use atomic_table::{Join, Play, Split};
use std::marker::PhantomData;

/// The word goes from 0 to 1, or is read as 1 and the take is refused.
pub(crate) struct Attempt<V> {
    of: PhantomData<V>,
}

impl<V: Kept> Play<Option<V>, View<V::World, V::Item>> for Attempt<V> {
    ghost then = { Attempts V.world V.story };
}

/// The word goes from 1 to 0, and the seat has seen the story of what it gave.
pub(crate) struct Give<V> {
    of: PhantomData<V>,
}

impl<V: Kept> Play<Option<V>, View<V::World, V::Item>> for Give<V> {
    ghost then = { Gives (λ v value counted. resting v (V.story value) counted) };
}

/// The word is read, and there is a new seat.
pub(crate) struct Twin;

impl<W, I> Split<View<W, I>> for Twin {
    ghost left = { λ v. v };

    ghost right = { λ v. seated v.world v.seen };
}

/// The word is read, and one of two seats is spent.
pub(crate) struct Merge;

impl<W, I> Join<View<W, I>> for Merge {
    ghost both = { λ v other. informed v (longer v.seen other.seen) (shorter v.seen other.seen) };

    ghost spent = { seated None [] };
}

/// The word is read after a join: both lists begin the one story, so the shorter begins the longer.
pub(crate) struct Settle;

impl<V, W, I> Play<Option<V>, View<W, I>> for Settle {
    ghost then = { Settles };
}
