//! Cubes of outer atoms, the entries of a history, and what makes cubes short.
//!
//! A [`Cube`] holds all interpretations in which its literals are true. An [`Entry`] is the verdict on all outer moves
//! of a level that a cube holds, and the move that it was found for. Who looks for the cube of an outer move marks the
//! atoms that it rests on, and takes atoms by [`Preferences`]; [`Cube::of_places`] is then the cube.
//!
//! In reading order:
//!
//! - `cube`: cubes
//! - `merge`: two ascending lists of literals as one
//! - `literals`: the literals of marked atoms
//! - `entry`: entries
//! - `marks`: places of atoms, and marks on them
//! - `preferences`: which of two atoms is taken
#![tactic(auto)]

mod cube;
mod entry;
mod literals;
mod marks;
mod merge;
mod preferences;

pub use cube::Cube;
pub use entry::Entry;
pub use marks::{is_chosen, mark, mark_all, places};
pub use preferences::{
    Lateness, Preferences, Standing, Turn, count_served, first_of_truth, last_standings, rank_base,
};
