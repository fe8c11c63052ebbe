//! The reader: it answers the one program that the bytes are a text of, or the one refusal of the text.
//!
//! In reading order: `states` (which token may come where, and which state is behind it), `parts` (what a token adds to
//! the program), `refusals` (the refusal of a token that can't come), `text` (the whole text).
#![tactic(auto)]

mod parts;
mod refusals;
mod states;
mod text;

pub use text::read;
