//! What a run prints: the canonical text of a program, sets, and the lines of refusals, verdicts and pages.
//!
//! Nothing here takes memory: bytes are gathered on the stack, and few calls reach the sink.
//!
//! In reading order: `buffer` (bytes), `pieces` (numbers and lists), `program` (the canonical text), `sets` (sets of atoms),
//! `line` (the lines), `laws` (the canonical text is read as the same program).
#![tactic(auto)]

mod buffer;
mod laws;
mod line;
mod pieces;
mod program;
mod sets;

pub use laws::canonical_text_is_a_text;
pub use line::{Line, print_line};
pub use program::print_program;
pub use sets::{print_set, print_sets};
