//! Tests of what decides behind the last level, and of what a move of a level rests on, against answers that were found by
//! hand, and against trying every outer move of random games. Programs are written as texts. What makes an outer move and tells
//! moves serves `cube_bench` too, and what tells of cubes `entry_tests`.
//!
//! In reading order: `moves` (an outer move of a game), `evaluating` (the value behind the last level, with its cube),
//! `holding` (cubes and the sets that they hold), `meeting` and `answering` (whether a set is a move of a level), `explaining`
//! (the cube of a move), `series` and `drawn` (random constraints and rules), `tried` and `explained` (the outer moves in their
//! cubes).
#![tactic(auto)]

pub mod answering;
#[cfg(test)]
mod drawn;
#[cfg(test)]
mod evaluating;
#[cfg(test)]
mod explained;
#[cfg(test)]
mod explaining;
pub mod holding;
pub mod meeting;
pub mod moves;
pub mod series;
#[cfg(test)]
mod tried;
