//! Tests of games: the instances of programs, their bounds, how many instances there are, and the sets of their atoms, against
//! answers that were found by hand. Programs are written as texts.
#![tactic(auto)]

#[cfg(test)]
mod games;
#[cfg(test)]
mod sets;
