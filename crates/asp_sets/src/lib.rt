//! Sets of atoms, read from their texts.
//!
//! In reading order: `suffix` takes the text of an atom off the end of a text, `set` reads a set, and `laws` says which bases
//! have sets that can be read.
#![tactic(auto)]

mod laws;
mod set;
mod suffix;

pub use laws::{text_bases_are_readable, texts_are_read};
pub use set::read_set;
