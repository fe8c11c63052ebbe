//! Full instantiation: all instances of a program's rules over the universes of their levels.
//!
//! The instances of one rule are those of its template, which `asp_template` makes.
//!
//! In reading order: `level` (the instances of the rules of a level), `bound_template` and `bounds` (the ground bounds of
//! choices), `consistency` (that an atom and its negation aren't both true), `game` (the game of a program), `constants`
//! and `counts` (how many instances there are, counted without taking memory), `laws` (the game of a program is valid).
#![tactic(auto)]

mod bound_template;
mod bounds;
mod consistency;
mod constants;
mod counts;
mod game;
pub mod laws;
mod level;

pub use counts::{count, instance_count};
pub use game::{ground, instantiate, measure};
