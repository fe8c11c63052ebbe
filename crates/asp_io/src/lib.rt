//! Where bytes come from and where they go: the traits `Source` and `Sink`, and loops over them.
//!
//! A contract knows a source by the bytes that it has left, and a sink by the bytes that it has taken,
//! where these are told, and both by a count of faults. Code that is generic over the traits can't
//! raise that count, so an answer `Failed` always has its cause outside.
//!
//! In reading order:
//!
//! - `fault`: the errors
//! - `source`: the trait `Source`, and `read_all`
//! - `sink`: the trait `Sink`, and `write_all`
//! - `memory`: two sources and a sink in memory, whose calls are short, and fail by a list
#![tactic(auto)]

mod fault;
mod memory;
mod sink;
mod source;

pub use fault::{Failed, ReadFault};
pub use memory::{MemSink, MemSource, SureSource};
pub use sink::{Sink, write_all};
pub use source::{Source, read_all};
