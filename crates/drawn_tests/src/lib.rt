//! Tests of the moves of random levels with bounds, against the definitions over bits. Programs are written as texts; each atom is
//! one letter.
//!
//! In reading order: `meaning` (what moves are, by the definitions), `written` (texts of random levels), `drawn` (the moves of random
//! levels).
#![tactic(auto)]

#[cfg(test)]
mod drawn;
#[cfg(test)]
mod meaning;
#[cfg(test)]
mod written;
