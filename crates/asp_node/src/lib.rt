//! One node: the search for a verdict on an outer move of a level.
//!
//! The moves of the level are found one after another. Each is a question to the next level, whose answer is an entry. An
//! entry with the verdict of the level's quantifier (true for exists, false for forall) decides the node, by an entry of its
//! own. Each other entry refutes the move, and with it all moves that its cube holds, now and later.
//!
//! In reading order:
//!
//! - `child`: the trait of one who answers questions to a level
//! - `place`: where a region lies, and how its search ends
//! - `adding`: entries that are added
//! - `asking`: a move's question to the next level
//! - `node`: the call `region`
#![tactic(auto)]

mod adding;
mod asking;
mod child;
mod node;
mod place;

pub use adding::{add_entry, true_atoms};
pub use child::Child;
pub use node::{region, winning_verdict};
pub use place::{Place, RegionEnd};
