//! The moves of a level of a text, asked for one after another: for tests and for benchmarks. Atoms of the tests are single letters,
//! and sets of them are masks.
//!
//! In reading order: `questions` (outer moves, regions and cubes, as the calls want them), `asked` (the moves of a level as masks,
//! and their core), `trials` (what is tried on the moves of a level of a text).
#![tactic(auto)]

pub mod asked;
pub mod questions;
pub mod trials;
