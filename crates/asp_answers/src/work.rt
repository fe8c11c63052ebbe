//! The work on one question.
use asp_bits::Bits;
use asp_defs::{Kind, List, Lit};
use asp_search::Search;

/// The last answer to a question.
#[derive(Debug, Drop, Clone, Copy, PartialEq, Eq)]
pub enum Answered {
    /// None, since there was no question.
    Unasked,
    /// None since the question.
    Nothing,
    /// A move.
    Found,
    /// A core.
    Core,
    /// A search of this kind has spent the budget.
    Spent(Kind),
    /// Memory was refused.
    NoMemory,
}

/// How often each kind of search has spent the budget.
#[derive(Debug, Drop, Clone, Copy, PartialEq, Eq)]
pub struct Counts {
    /// The search for candidates.
    pub searches: u64,
    /// The check of a candidate.
    pub checks: u64,
}

/// A question for moves, or none yet, and what it is searched with.
#[derive(Drop)]
pub struct Work {
    pub search: Search,
    /// The search of the last check of a candidate.
    pub check: Search,
    /// The cubes that are left out of every question.
    pub kept: Vec<List<Lit>>,
    pub outer: Bits,
    pub region: List<Lit>,
    /// Whether each answer is to be the first of the moves that are left.
    pub ordered: bool,
    pub blocked: List<List<Lit>>,
    /// The nogoods of all questions, in the order in which they were made.
    pub nogoods: List<List<Lit>>,
    /// The last candidate.
    pub set: Bits,
    pub last: Answered,
}
