//! Tests of the moves of a level, against sets and cores that were worked out by hand. Programs are written as texts; each atom is
//! one letter.
//!
//! | module | tests |
//! |---|---|
//! | `letters` | sets and literals as letters, for the next |
//! | `wanted` | what is wanted of a question, for the next |
//! | `rows` | levels whose moves were worked out by hand |
//! | `budgets` | budgets that are spent |
//! | `nogoods` | how many nogoods are recorded |
//! | `blocked` | cubes that are blocked until the next question |
//! | `kept` | cubes that are kept |
#![tactic(auto)]

#[cfg(test)]
mod blocked;
#[cfg(test)]
mod budgets;
#[cfg(test)]
mod kept;
#[cfg(test)]
mod letters;
#[cfg(test)]
mod nogoods;
#[cfg(test)]
mod rows;
#[cfg(test)]
mod wanted;
