//! The grammar as a machine over tokens: from each state, which token may come and what it adds to the
//! program's tree.
//!
//! In reading order: `state` (the states of the grammar), `tree` (a program as far as it was read), `laws` (what the
//! machine's answers say of the grammar).
#![tactic(auto)]

pub mod laws;
mod state;
mod tree;

pub use state::{Directive, Role, Side, State};
pub use tree::{Builder, Tree};
