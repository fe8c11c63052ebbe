//! The run of the program, from its words and the bytes of its source to the bytes of its sink.
//!
//! In reading order: `status` has how a run ends, `number` and `options` read the words behind a command, `words` reads the
//! words, `refusal` has why a text is not accepted, `accept` has whether it is, `answer` has what a run has to say and
//! writes it, `solve` decides a program, `reply` finds the answer for the bytes of a source, `run` is the run, and `laws`
//! says that there is one right answer to words and bytes where it isn't open, and when it isn't.
#![tactic(auto)]

mod accept;
mod answer;
pub mod laws;
mod number;
mod options;
mod refusal;
mod reply;
mod run;
mod solve;
mod status;
mod words;

pub use run::run_single;
pub use status::{Ended, Status, Used};
