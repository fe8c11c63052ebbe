//! Whether an interpretation is an answer set of rules with free choices, by a search for what could leave it, and the clause
//! that a set of atoms gives which nothing outside it supports.
//!
//! # Idea
//! - An interpretation that satisfies the rules is an answer set exactly where none of its subsets but the empty one is
//!   unfounded in it. With a free choice on an atom, that atom is in no unfounded set.
//! - The search has an atom for each true atom without a free choice, true where that atom stays. Each rule by which a true
//!   atom could be supported gives one clause: an atom of the positive body leaves, or an atom of the head stays. One more
//!   clause says that some atom leaves. What leaves in an assignment is unfounded; where there is none, nothing is.
//! - A true atom that no rule supports alone is an unfounded set. One pass over the rules tells all such atoms.
//! - An interpretation all of whose atoms rules found one after another, each by a rule with no other true head atom, is an answer set.
//!   Where some are left and no rule supports them together, they are an unfounded set, and so are as a rule few of them, such as one
//!   loop. So the search is only asked where a rule that supports what is left has several true head atoms: never where no rule has.
//! - An unfounded set stays unfounded wherever none of its atoms is false and no rule became its support. So one literal
//!   for each of its atoms and one for each rule that could support it make a clause that every answer set satisfies. One of the
//!   atoms' literals is enough: of an answer set that has the atom, the part of the set in it would be unfounded too.
//!
//! # Map
//! | module | state or step |
//! |---|---|
//! | `atoms` | which atoms are true in one interpretation and have a value in another |
//! | `numbers` | which atoms the search has, and under which number |
//! | `clauses` | the clauses that the search is given |
//! | `alone` | which true atoms no rule supports alone |
//! | `settling` | the answer where it wants no search |
//! | `minimality` | the call `minimal` |
//! | `blocking` | the calls `nogood` and `nogood_of_atom` |
#![tactic(auto)]

mod alone;
mod atoms;
mod blocking;
mod clauses;
mod minimality;
mod numbers;
mod settling;

pub use blocking::{nogood, nogood_of_atom};
pub use minimality::{Minimality, minimal};
