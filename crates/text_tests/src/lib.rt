//! Tests of the public calls on texts: cutting them into tokens, reading, checking and printing.
//!
//! In reading order: `texts` (texts that are made of parts), `forms` (programs in one form), and then `lexing`, `reading`,
//! `checking`, `printing` and `sets`, with a table for each kind of row.
#![tactic(auto)]

#[cfg(test)]
mod checking;
#[cfg(test)]
mod forms;
#[cfg(test)]
mod lexing;
#[cfg(test)]
mod printing;
#[cfg(test)]
mod reading;
#[cfg(test)]
mod sets;
#[cfg(test)]
mod texts;
