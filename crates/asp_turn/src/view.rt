//! The view of a seat.
use std::collections::LinkedList;

/// What a seat knows. No value of it is made: it stands in proofs alone.
pub struct View<W, I> {
    // The one world of all seats; none once the seat was joined into another.
    pub world: Option<W>,
    // The story as far as the seat has seen it.
    pub seen: LinkedList<I>,
    // The shorter list of the last join, until it is settled that it begins the longer.
    pub told: LinkedList<I>,
    // While the seat holds the value, the story with which it took it.
    pub taken: Option<LinkedList<I>>,
    // How many takes were refused.
    pub refused: u64,
    // How many takes of each seat were refused, by its number, when this seat last gave the value back.
    pub counted: LinkedList<u64>,
}
