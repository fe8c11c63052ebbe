//! Clauses under watch, and the trail of placed literals.
//!
//! # Idea
//! - A literal is a code: `2 * atom + 1` for the atom, `2 * atom` for its negation.
//! - A `Book` keeps clauses as records. A clause is looked at only where one of its two watched literals
//!   became false.
//! - A record has two parts: its literals, in one flat arena, and what a visit reads at first, in a table
//!   by the clause's number: two nodes, one for each watch, with the link and the literal that is watched
//!   besides. Where that literal is true, the visit ends there, so most visits read from one place.
//! - The clauses that watch a literal form a list, whose links lie in the records: to move a watch
//!   takes no memory.
//! - Learned clauses that no placed literal stands on can be removed, and loose clauses are removed when
//!   the book settles. Records move down in place, and the clauses that stay are watched anew by the same
//!   literals.
//! - A `Trail` is the list of the placed literals, each a decision or implied by a clause. It counts
//!   its placements, and stops at a budget.
//! - Read as digits in base 3, a decision as 1 and an implied literal as 2, the trail is a number
//!   that every placement raises, also one that first goes back. So there are fewer than `3^n` of them.
//!
//! # Map
//! | module | state or step |
//! |---|---|
//! | `literal` | the other literal of an atom |
//! | `rows` | the arena: a row of words for each clause |
//! | `records` | a clause in two parts: what visits read, and the row |
//! | `watches` | the lists of watching clauses: heads, links, how many clauses are watched |
//! | `kind` | what is known of a clause besides its literals |
//! | `book` | the clauses as callers see them |
//! | `compact` | removes clauses in place |
//! | `steps` | a table of placed literals with their reasons |
//! | `trail` | placed literals, their values, places and levels, decisions, count and budget |
//! | `examine` | the first look at a new clause: it chooses what to watch |
//! | `propagation` | places implied literals until none is left, a clause is false, or the budget is spent |
#![tactic(auto)]

mod book;
mod compact;
mod examine;
mod kind;
mod literal;
mod propagation;
mod records;
mod rows;
mod steps;
mod trail;
mod watches;

pub use book::Book;
pub use kind::Kind;
pub use propagation::propagate;
use std::alloc::AllocError;
pub use trail::{Spent, Trail};

/// Memory was refused, or a number that has to fit 32 bits is used up.
pub type NoMemory = AllocError;
