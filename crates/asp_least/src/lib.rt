//! Which atoms of an interpretation rules found one after another, in time linear in the rules' lengths.
//!
//! # Idea
//! - A rule founds an atom where its body is true, each atom of its positive body is founded or needs no foundation, and the atom is
//!   the only true one of its head. Founding is meant to go on until no rule founds more, but no contract says so.
//! - A set with a founded atom is never unfounded: of its atoms the one that was founded first has a rule that supports the set. So an
//!   interpretation all of whose atoms are founded is an answer set where it satisfies the rules, and else all that can leave it is
//!   among the atoms that are left.
//! - A rule waits until as many atoms of its positive body are founded as were left at first. A counter for each rule and one flat list
//!   of the rules that wait for each atom make that linear. What a rule does is looked at again when its turn comes, so that no
//!   contract rests on the counters.
//! - What is left may hold many loops that have nothing to do with each other. From one atom, a part grows by an atom of the positive
//!   body of each rule that could support it; so it has one loop and what that needs.
//!
//! # Map
//! | module | state or step |
//! |---|---|
//! | `heads` | the only true atom of a head |
//! | `links` | numbers under places, in one flat list |
//! | `waiting` | the rules that wait, and for which atoms |
//! | `founding` | the call `left_unfounded` |
//! | `shrinking` | the call `part_with` |
#![tactic(auto)]

mod founding;
mod heads;
mod links;
mod shrinking;
mod waiting;

pub use founding::left_unfounded;
pub use heads::no_other;
pub use shrinking::part_with;
