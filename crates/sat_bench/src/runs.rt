//! What was found in the searches so far, and what they took.

/// What was found in the searches so far, and what they took.
#[derive(Clone, Copy)]
pub struct Runs {
    /// How many searches were run.
    pub searches: u64,
    /// How many of them found an assignment.
    pub found: u64,
    /// Whether the last one did.
    pub last_found: bool,
    /// How many literals they placed.
    pub placements: u64,
    /// How many literals they decided.
    pub decisions: u64,
    /// How many conflicts taught a clause.
    pub conflicts: u64,
}

/// No search was run.
pub const NO_RUNS: Runs = Runs {
    searches: 0,
    found: 0,
    last_found: false,
    placements: 0,
    decisions: 0,
    conflicts: 0,
};
