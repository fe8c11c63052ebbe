//! Sources and a sink in memory, whose calls move few bytes and fail where a list says so.
mod calls;
mod mem_sink;
mod mem_source;
mod supply;
mod sure_source;

pub use mem_sink::MemSink;
pub use mem_source::MemSource;
pub use sure_source::SureSource;
