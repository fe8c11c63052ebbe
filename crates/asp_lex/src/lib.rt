//! The lexer: it cuts a text into tokens, each a slice of the text, or answers the lexical refusal that stands first.
//!
//! In reading order: `tokens` (what a token is), `pieces` (the longest piece that begins with a byte, by classes of
//! bytes), `text` (the whole text).
#![tactic(auto)]

mod pieces;
mod text;
mod tokens;

pub use text::lex;
pub use tokens::{Tok, Token};
