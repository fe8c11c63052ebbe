//! Tests of the turn: one value that threads take by their seats.
#![tactic(auto)]

#[cfg(test)]
mod turns;
