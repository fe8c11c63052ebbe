//! Tests of cubes and of the entries of a history, against answers that were found by hand.
#![tactic(auto)]

#[cfg(test)]
mod entries;
