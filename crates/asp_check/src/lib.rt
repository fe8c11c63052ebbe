//! The checks of a program as it is written: its safety, the form of its constraint part, and its size.
//!
//! The unsafe variables of a rule are found by `asp_safety`. In reading order: `counts` (what the limits count), `checks`
//! (the answer for a program), `laws` (that programs of texts meet the condition of `check`).
#![tactic(auto)]

mod checks;
mod counts;
pub mod laws;

pub use asp_checked::Checked;
pub use checks::{CheckFault, check};
