//! Tests of the whole run and of sources and sinks in memory, against answers that were found by hand or by trying all sets.
//!
//! In reading order: `memory` (reading and writing, with pieces, limits and faults), `rows` (how a row that fails is named), `runs` (how a row is run), `words`,
//! `refused`, `printed`, `solved`, `games`, `bounds` and `negation` (rows of words, texts, outputs and statuses),
//! `levels` (verdicts against the enumeration of all sets),
//! `limits`, `sizes` and `names` (texts that reach or pass a limit), `faults` (sources and sinks that fail), `examples`
//! (the texts of the folder `examples`).
#![tactic(auto)]

#[cfg(test)]
mod bounds;
#[cfg(test)]
mod examples;
#[cfg(test)]
mod faults;
#[cfg(test)]
mod games;
#[cfg(test)]
mod levels;
#[cfg(test)]
mod limits;
#[cfg(test)]
mod memory;
#[cfg(test)]
mod names;
#[cfg(test)]
mod negation;
#[cfg(test)]
mod printed;
#[cfg(test)]
mod refused;
#[cfg(test)]
mod rows;
#[cfg(test)]
mod runs;
#[cfg(test)]
mod sizes;
#[cfg(test)]
mod solved;
#[cfg(test)]
mod words;
