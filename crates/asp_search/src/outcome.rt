//! What a search answers.

use asp_defs::List;

/// The answer of a search.
#[derive(Debug, Drop)]
pub enum Outcome {
    /// Each atom has a value; clauses and assumptions hold.
    Found,
    /// Assumptions with which no assignment satisfies the clauses.
    Core(List<u32>),
}
