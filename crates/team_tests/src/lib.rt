//! Tests of one worker's verdicts on given outer moves, level by level, against answers that were found by hand. Programs are
//! written as texts; each atom is one letter.
//!
//! In reading order: `outer` (an outer move of a level), `asked` (a question and its answer), `rows` (questions one after
//! another).
#![tactic(auto)]

#[cfg(test)]
mod asked;
#[cfg(test)]
mod outer;
#[cfg(test)]
mod rows;
