//! Worked examples of the definitions of `asp_defs`: each contract is computed. Nothing stands on this crate, so an example is
//! added without a new proof of any other.
//!
//! `games` has those of programs, values and histories, `bounds` those of choice bounds and strong negation, `texts` those of
//! texts, words and output.
#![tactic(auto)]

pub mod bounds;
pub mod games;
pub mod texts;
