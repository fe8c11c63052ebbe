//! A clause-learning search for an assignment that satisfies clauses under assumptions.
//!
//! # Idea
//! - The assumptions are decided first, one level each; then the atom of the highest activity, with the phase that it
//!   had last. Propagation by two watched literals places what follows.
//! - A false clause is resolved with the reasons of its literals, backwards along the trail, until one literal of its
//!   level is left: the first unique implication point. The clause that is learned follows from the clauses alone. Where
//!   it rests on a loose one it is loose too; else it stays for later searches.
//! - The search goes back to the second highest level of the learned clause, which then implies its one literal; or less
//!   far, where assumptions would have to be decided again.
//!   There are no restarts: each jump raises the number that the trail is in base 3, so every search ends.
//! - Where an assumption is false when its turn comes, the decisions that its negation rests on are the core.
//!
//! # Map
//! | module | state or step |
//! |---|---|
//! | `seen` | the literals that an analysis has marked |
//! | `solver` | what a search works on: book, trail, decision heap, seen literals, assumptions |
//! | `analyze` | a conflict, resolved down to one literal of its level, and the clause that is learned |
//! | `ground` | whether loose clauses are reasons before the first decision |
//! | `minimize` | what follows from the marked literals, so that the learned clause needn't name it |
//! | `activity` | how active clauses were, and how many decision levels they have |
//! | `drop` | loose clauses are dropped where a search begins, learned ones at growing intervals |
//! | `jump` | the learned clause is added, and the trail goes back to where it implies a literal |
//! | `cores` | the assumptions that a false assumption rests on |
//! | `clause` | a clause as callers give it: repeated literals, both literals of an atom |
//! | `steps` | one step: propagate, then learn from a conflict or decide |
//! | `outcome`, `fault` | what a search answers, and why it gives no answer |
//! | `stage` | where a search stands between two calls |
//! | `search` | the calls: `new`, `add`, `add_loose`, `begin`, `next`, `value`, `budget` |
//! | `laws` | what is kept of the added clauses |
#![tactic(auto)]

mod activity;
mod analyze;
mod clause;
mod cores;
mod drop;
mod fault;
mod ground;
mod jump;
mod laws;
mod minimize;
mod outcome;
mod search;
mod seen;
mod solver;
mod stage;
mod steps;

pub use asp_clauses::NoMemory;
pub use fault::SearchFault;
pub use laws::kept_clauses_stand_for_the_added;
pub use outcome::Outcome;
pub use search::Search;
pub use stage::Stage;
