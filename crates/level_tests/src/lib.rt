//! Tests of the public calls on a level's answer sets.
//!
//! | module | tests |
//! |---|---|
//! | `texts` | the rules of a text, and how a row that fails is named, for the next |
//! | `minimality` | answer sets and nogoods of `asp_minimal`, on texts |
//! | `programs` | the same on random programs, against the definitions over bits |
//! | `loops` | how many nogoods rule out independent loops |
//! | `moves` | an implementation of the trait of `asp_game`, and a caller of it |
#![tactic(auto)]

#[cfg(test)]
mod loops;
#[cfg(test)]
mod minimality;
#[cfg(test)]
mod moves;
#[cfg(test)]
mod programs;
#[cfg(test)]
mod texts;
