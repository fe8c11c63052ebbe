//! Members that share one history, event by event, on one thread.
//!
//! A [`Machine`] is the core of a run with teams: a history, and members of which each has seen a prefix of it. A member looks,
//! which shows it all of the history; adds an entry that what it has seen justifies; forks; or ends. Whatever the events are
//! and in whatever order they come, the history stays legal, each of its entries is sound, and nothing that was seen goes.
//!
//! In reading order:
//!
//! - `event`: what a member does
//! - `members`: whether each member lives, and how much it has seen
//! - `machine`: the machine
//! - `laws`: what holds after every list of events
#![tactic(auto)]

mod event;
mod laws;
mod machine;
mod members;

pub use event::Event;
pub use laws::{runs_only_grow, runs_stay_sound};
pub use machine::Machine;
