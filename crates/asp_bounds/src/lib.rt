//! Bounds of choices in an interpretation: whether it meets them, and a clause of one that it doesn't meet.
//!
//! # Idea
//! - A bound counts the true atoms of its terms whose conditions are true, each atom once.
//! - Where an interpretation has fewer atoms than the lower bound, one literal of each term that doesn't count there says why;
//!   while these reasons stay and the body is true, no further atom counts. Where it has more than the upper bound, one atom more
//!   than that, each with its condition, is too many already. So the literals against the body and these reasons make a clause that
//!   is false there and true in each interpretation that meets the bound.
//!
//! # Map
//! | module | state or step |
//! |---|---|
//! | `terms` | which terms count, and why one doesn't |
//! | `limits` | numbers against the ends of a bound |
//! | `denials` | the literals of a clause |
//! | `meeting` | the call `unmet` |
#![tactic(auto)]

mod denials;
mod limits;
mod meeting;
mod terms;

pub use meeting::unmet;
