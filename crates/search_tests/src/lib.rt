//! Tests of the public calls of clauses and searches.
//!
//! | module | tests |
//! |---|---|
//! | `rows` | how a test names the row that fails |
//! | `literals` | whether codes are literals of so many atoms |
//! | `clauses` | trails, books and propagation of `asp_clauses` |
//! | `probe` | a search of `asp_search` with answers in numbers, for the next two |
//! | `search` | searches that were worked out by hand |
//! | `numbers` | a series of numbers for random formulas, and for the programs of `level_tests` |
//! | `formulas` | all small formulas and random ones, against all assignments |
#![tactic(auto)]

#[cfg(test)]
mod clauses;
#[cfg(test)]
mod formulas;
#[cfg(test)]
mod literals;
pub mod numbers;
#[cfg(test)]
mod probe;
#[cfg(test)]
mod rows;
#[cfg(test)]
mod search;
