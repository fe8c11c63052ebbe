//! What the moves of a level answer.

use asp_bits::Bits;
use asp_defs::{List, Lit};

/// An answer to the question for a level's moves.
#[derive(Debug, Drop)]
pub enum Step {
    /// A move: an answer set of the level after the outer move.
    Found(Bits),
    /// No further move is left, after this outer move and after each other one that has these literals, whose atoms ascend.
    Core(List<Lit>),
}
