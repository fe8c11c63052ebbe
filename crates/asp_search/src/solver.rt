//! What a search works on, and the first looks at it.

ghost use Rattle.std.specs.Prelude.{◌≡◌, ◌↔◌, ℕ, ◌*◌, ◌<◌, ◌≤◌, ◌^◌, length, IsTrue};
ghost use Rattle.asp_clauses.specs.Literal.{negated};
ghost use Rattle.asp_clauses.specs.Trail.{IsPlaced};

use crate::activity::{ClauseActivity, LevelCount};
use crate::seen::Seen;
use asp_clauses::{Book, Trail};
use asp_decide::DecisionHeap;

/// The state of a search between two steps.
#[derive(Drop)]
pub struct Solver {
    pub book: Book,
    pub trail: Trail,
    pub heap: DecisionHeap,
    // The literals that an analysis marked; empty between two steps.
    pub seen: Seen,
    // Whether the clause that is being learned rests on a loose one.
    pub loose: bool,
    // So many literals before the first decision were looked at for loose reasons,
    pub looked: u32,
    // and whether one was found.
    pub ground_loose: bool,
    // How active each clause was, and when learned ones are dropped next.
    pub activity: ClauseActivity,
    // The decision levels of the clause that is being learned.
    pub levels: LevelCount,
    // The clause that is being learned.
    pub learned: Vec<u32>,
    pub assumed: Vec<u32>,
    // The assumptions before this one are true.
    pub cursor: usize,
    // They are true by the first decisions, as many as this.
    pub held: u32,
    // All atoms below this one have values.
    pub front: u32,
    // Whether each choice since the search began made the first atom without a value false; true before the first one.
    pub in_order: bool,
    // How many literals were decided since the search was made.
    pub decided: u64,
}

/// The other literal of the same atom.
pub fn opposite(literal: u32) -> u32
    ensures { result ≡ negated literal }
{
    if literal % 2 == 0 {
        literal + 1
    } else {
        literal - 1
    }
}

/// Whether the literal is true.
pub fn is_true(trail: &Trail, literal: u32) -> bool
    requires { literal < 2 * trail.now.atoms }
    ensures { IsTrue result ↔ IsPlaced trail.now.steps literal }
{
    match trail.value(literal) {
        Some(value) => value,
        None => false,
    }
}
