//! The moves of a level, by a clause-learning search for candidates and a check of each.
//!
//! # Idea
//! - The search has the clauses of the level's rules, of their completion and of those bounds that a few clauses say. The outer move
//!   and the region are assumed; each blocked cube is a clause that holds until the next question, each kept one a clause that stays.
//!   What it finds is a model of the rules.
//! - A candidate is a move exactly where it is an answer set with a free choice on each atom of the base below the
//!   level. Where it isn't, some of its own atoms are unfounded, and these give a clause that every move satisfies and
//!   the candidate doesn't. So the search goes on, with fewer candidates left.
//! - Every clause holds in all moves after all outer moves, outside the cubes that are left out. So where the search has a core,
//!   its outer literals refute each outer move that has them.
//!
//! # Map
//! | module | state or step |
//! |---|---|
//! | `work` | a question, and what it is searched with |
//! | `question` | the search before the first question, and a new question |
//! | `find` | the search for the next answer |
//! | `cubes` | cubes that are left out, of a question or of every question |
//! | `asking` | what a refused cube leaves |
//! | `answers` | the type, and the calls as the trait has them |
#![tactic(auto)]

mod answers;
mod asking;
mod cubes;
mod find;
mod question;
mod work;

pub use answers::Answers;
