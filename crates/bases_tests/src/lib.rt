//! Tests of interpretations, rules over them and bases, against answers that were found by hand. Programs are written as texts.
//! What is made of a text and how a row is named serves `game_tests` and `cube_tests` too.
//!
//! In reading order: `rows` (how a test names the row that fails), `texts` (what is made of a text), `bits` (interpretations),
//! `reduct` (rules over them), `bases` (atoms and their numbers).
#![tactic(auto)]

#[cfg(test)]
mod bases;
#[cfg(test)]
mod bits;
#[cfg(test)]
mod reduct;
pub mod rows;
pub mod texts;
