//! What is known of a clause besides its literals.

/// The header of a clause, in one word.
#[derive(Clone, Copy)]
pub struct Kind {
    /// Whether it was learned. Only learned clauses can be removed.
    pub learned: bool,
    /// Whether it goes when the book settles; other clauses are firm.
    pub loose: bool,
    /// What the one who learned it noted, such as its number of distinct decision levels.
    pub score: u16,
}

/// A clause that was given, and that stays.
pub const FIRM: Kind = Kind {
    learned: false,
    loose: false,
    score: 0,
};

/// A clause that was given, and that goes when the book settles.
pub const LOOSE: Kind = Kind {
    learned: false,
    loose: true,
    score: 0,
};
