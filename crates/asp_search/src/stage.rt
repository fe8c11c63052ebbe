//! Where a search stands between two calls.

/// Where a search stands between two calls.
#[derive(Debug, Drop, Clone, Copy, PartialEq, Eq)]
pub enum Stage {
    /// No search has begun.
    New,
    /// A search has begun, and the next call goes on with it.
    Begun,
    /// An assignment was found, and no clause was added since.
    Found,
    /// An assignment was found, and clauses were added since.
    Extended,
    /// The budget is spent.
    Spent,
    /// Memory was refused.
    NoMemory,
}
