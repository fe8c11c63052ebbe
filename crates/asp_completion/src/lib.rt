//! A level of a game and the clauses of its rules, for a search of its moves.
//!
//! # Idea
//! - The search has an atom for each atom of the level's base, numbered by its place there, and a clause for each rule
//!   that is no choice. What satisfies these clauses is a model of the rules.
//! - It has clauses of the rules' completion too, those that need no further atom: an atom that the base below lacks is
//!   false where no rule heads it, and where one rule heads it, the body of that rule follows from it. Where a few rules head
//!   it, one of their bodies does: each clause has the atom's negation and one literal of each body.
//! - So the level's facts are unit clauses, and so are the negations of the atoms that stand in no head.
//! - It has clauses of bounds without conditions, where these want at least one of their atoms, or at most one and there are few pairs.
//! - Every clause holds in all moves after all outer moves.
//!
//! # Map
//! | module | state or step |
//! |---|---|
//! | `ranks` | the places of atoms in a base |
//! | `level` | a level of a game, its bases and rules, and the codes of its literals |
//! | `clauses` | clauses of rules and of literals |
//! | `heads` | which rules head an atom |
//! | `bodies` | the literals of these rules' bodies |
//! | `completing` | clauses of the rules' completion |
//! | `bounding` | clauses of bounds that want at least one of their atoms, or at most one |
#![tactic(auto)]

mod bodies;
mod bounding;
mod clauses;
mod completing;
mod heads;
mod level;
mod ranks;

pub use bounding::add_bounds;
pub use clauses::{add_literals, add_loosely, add_rules, push_literals};
pub use completing::add_completion;
pub use level::Level;
