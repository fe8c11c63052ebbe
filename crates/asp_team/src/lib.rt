//! Who answers a question to a level of a game: one worker for each level, one behind the other.
//!
//! A question goes down by types: `Base` answers behind the last level, by the constraints, and `Layer<C>` answers for a level
//! whose next level has the child `C`. There are always sixteen layers round one base, as many as a game can have levels, and
//! a layer without a level passes on what it is asked.
//!
//! In reading order:
//!
//! - `base`: who answers behind the last level
//! - `level`: who searches the moves of a level
//! - `concluding`: the answer at the end of a level's search
//! - `layer`: who answers for a level, or passes on
//! - `eight`, `sixteen`: layers round layers
//! - `single`: one worker's history with its layers, and the call `node_single`
#![tactic(auto)]

mod base;
mod concluding;
mod eight;
mod layer;
mod level;
mod single;
mod sixteen;

pub use single::{Single, node_single};
