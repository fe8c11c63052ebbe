//! What is written in a rule, in the order of the text: one walk for all that look at its atoms or its terms.
//!
//! In reading order: `walk` (the literals of a rule, each atom of its head as one), `terms` (the terms in them), `atoms`
//! (the atoms among them). None takes memory.
#![tactic(auto)]

mod atoms;
mod terms;
mod walk;

pub use atoms::Atoms;
pub use terms::Terms;
