//! Tests of regions and pages, against lists that were found by hand.
//!
//! | module | tests |
//! |---|---|
//! | `rows` | how a test names the row that fails |
//! | `cuts` | the regions of all sets and of those after one |
//! | `collecting` | the page that lists make |
#![tactic(auto)]

#[cfg(test)]
mod collecting;
#[cfg(test)]
mod cuts;
#[cfg(test)]
mod rows;
