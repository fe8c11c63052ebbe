//! Tests of stores, shelves and machines: acts one after another, with the answers that were found by hand.
//!
//! In reading order: `rows` (how a test names the row that fails), `games` (two games), `named` and `entries` (entries of them), `stores` (additions
//! and looks), `shelves` (the same by one worker's shelf), `machines` (events of members).
#![tactic(auto)]

#[cfg(test)]
mod entries;
#[cfg(test)]
mod games;
#[cfg(test)]
mod machines;
mod named;
#[cfg(test)]
mod rows;
#[cfg(test)]
mod shelves;
#[cfg(test)]
mod stores;

pub use named::Named;
