//! The one history of a run: a store of entries, and the trait by which workers look into it and add to it.
//!
//! A [`Store`] has a game, a number of cells, and a legal history of the game whose entries take no more cells. It finds the
//! first entry of a level that holds an interpretation, and adds entries that the history justifies. A [`Shelf`] is a store as
//! one worker knows it, which may be shared; [`Own`] is one that nobody shares.
//!
//! In reading order:
//!
//! - `added`: what an addition answers
//! - `positions`: the positions of each level's entries
//! - `store`: the store
//! - `shelf`: the trait
//! - `own`: a store of one worker
#![tactic(auto)]

mod added;
mod own;
mod positions;
mod shelf;
mod store;

pub use added::{AddFault, Added};
pub use own::Own;
pub use shelf::{Look, Shelf};
pub use store::Store;
