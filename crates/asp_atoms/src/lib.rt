//! The constants, predicates and atoms of a program, level by level, and the numbers of atoms.
//!
//! Integers are gathered as intervals, so that they are counted before any of them is written down. An atom's number is
//! the number of its predicate's first atom and, behind it, the ranks of its arguments read in the base of the number of
//! constants, the first argument being the most significant.
//!
//! In reading order: `counts` (sums and products that end at a greatest count), `const_refs` (constants that borrow
//! their names), `compare` (the orders), `search` (where constants and atoms stand), `terms` (the rules of the levels and
//! the terms in them), `intervals` (integers), `constants` (universes), `signatures` (predicates), `gathered` (all that,
//! and how many atoms there are), `vocabularies` (what numbering needs), `build` (how it is made), `tuples` (the atoms,
//! which share the names and symbols of the vocabulary), `members` (the numbers of a level's atoms), `base` (the bases),
//! `laws` (how numbers are read).
#![tactic(auto)]

mod base;
mod build;
mod compare;
mod const_refs;
mod constants;
pub mod counts;
mod gathered;
mod intervals;
pub mod laws;
mod members;
mod search;
mod signatures;
mod terms;
mod tuples;
mod vocabularies;

pub use base::{bases, bases_over};
pub use build::vocabulary;
pub use const_refs::{ConstRef, compare_const_refs};
pub use gathered::atom_count;
pub use intervals::{interval_length, stepped};
pub use search::{number, place_of};
pub use signatures::{Signature, program_signatures};
pub use vocabularies::{NumberedPredicate, Vocabulary};
