//! Why a search gave no answer.

use thiserror::Error;

/// Why a search gave no answer.
#[derive(Debug, Drop, Clone, Copy, PartialEq, Eq, Error)]
pub enum SearchFault {
    /// As many literals were placed since `begin` as the budget allows.
    #[error("the search's budget is spent")]
    Spent,
    /// Memory was refused, or a number of the kept clauses is used up.
    #[error("out of memory")]
    NoMemory,
}
