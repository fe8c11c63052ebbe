//! Where a region lies, and how its search ends.

use asp_bits::Bits;
use asp_defs::{Game, Lit};
use asp_entry::Cube;

/// A region of the moves of a level after an outer move.
#[derive(Drop)]
pub struct Place<'a> {
    /// The game.
    pub game: &'a Game,
    /// The level, from 1.
    pub level: u32,
    /// The number of the member that searches it, from 0.
    pub member: u32,
    /// The outer move, with a place for each atom of the game.
    pub outer: &'a Bits,
    /// The literals of the region, on atoms of the level's own.
    pub region: &'a [Lit],
}

/// How the search of a region ends.
#[derive(Debug, Drop)]
pub enum RegionEnd {
    /// The position of an entry of the level that holds the outer move.
    Decided(u32),
    /// Outer moves, the place's own among them, after each of which an entry of the next level refutes every move in the region.
    Exhausted(Cube),
}
