//! Tests of verdicts and quantified answer sets: of small games against what was found by hand, and of random programs against
//! a search among all sets of atoms that follows the description of the language. The random ones have bounds of choices and
//! strong negation in all levels.
//!
//! In reading order: `verdicts` (small games), `programs` (the random programs), `series` and `drawn` (how they come from
//! numbers), `written` (their texts), `meaning` (their values), `random` (the test).
#![tactic(auto)]

#[cfg(test)]
mod drawn;
#[cfg(test)]
mod meaning;
#[cfg(test)]
mod programs;
#[cfg(test)]
mod random;
#[cfg(test)]
mod series;
#[cfg(test)]
mod verdicts;
#[cfg(test)]
mod written;
