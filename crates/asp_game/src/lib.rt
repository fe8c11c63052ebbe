//! The moves of a level as a trait, and the gate that members of a team pass.
//!
//! A level of a game gets a question: an outer move, which fixes the atoms of the levels before, and a region, which
//! fixes some of the level's own atoms. It answers a move of the level after another, each outside all cubes that were
//! blocked so far, and at the end a core: a part of the outer move with which no further move is left, whatever the other
//! outer atoms are. Code that is generic over the trait knows an implementation by one ghost member, its `state`.
//!
//! In reading order:
//!
//! - `step`: a move or a core
//! - `moves`: the trait `Moves`
//! - `gate`: the trait `Gate`, and `NoGate`
#![tactic(auto)]

mod gate;
mod moves;
mod step;

pub use gate::{Gate, NoGate, Point};
pub use moves::Moves;
pub use step::Step;
