//! Which literal a search decides next: an unassigned atom of the highest activity, with the value that it had last.
//!
//! # Idea
//! - Each conflict makes its atoms more active, and later conflicts count more. The atoms that wait stand in a heap by
//!   activity, so the next one is taken in the time of its height.
//! - An atom that was taken while it had a value is passed over; whoever takes values back lets their atoms wait again.
//! - Where the heap has no unassigned atom left, the first one is sought from a front on, below which all atoms have
//!   values: so the answer that all have values rests on the trail alone. An ordered question goes by the front alone,
//!   which goes back only with the trail.
//!
//! # Map
//! | module | state or step |
//! |---|---|
//! | `decide` | activities, phases and the heap; `choose` takes the next literal from it |
#![tactic(auto)]

mod decide;

pub use decide::{DecisionHeap, choose};
