//! Standard input and output as a source and a sink. They tell no bytes, so that nothing is claimed of the outside.
ghost use Rattle.std.specs.Prelude.{None};

use asp_io::{Failed, Sink, Source};
use std::io::{Read, Write};

/// A reader as a source that tells no bytes and counts each error.
#[derive(Drop)]
pub struct RealSource<R> {
    reader: R,
    faults: u64,
}

impl<R> RealSource<R> {
    /// The source over a reader, without a fault so far.
    pub fn new(reader: R) -> RealSource<R> {
        RealSource { reader, faults: 0 }
    }
}

impl<R: Read> Source for RealSource<R> {
    ghost left = { λ _. None };

    ghost faults = { λ source. source.faults };

    fn read(&mut self, buf: &mut [u8]) -> Result<usize, Failed> {
        match self.reader.read(buf) {
            Ok(count) => Ok(count),
            Err(_) => {
                self.faults = self.faults.saturating_add(1);
                Err(Failed)
            }
        }
    }
}

/// A writer as a sink that tells no bytes, counts each error and each write that takes nothing, and flushes after
/// each write.
#[derive(Drop)]
pub struct RealSink<W> {
    writer: W,
    faults: u64,
}

impl<W> RealSink<W> {
    /// The sink over a writer, without a fault so far.
    pub fn new(writer: W) -> RealSink<W> {
        RealSink { writer, faults: 0 }
    }
}

impl<W: Write> Sink for RealSink<W> {
    ghost taken = { λ _. None };

    ghost faults = { λ sink. sink.faults };

    fn write(&mut self, bytes: &[u8]) -> Result<usize, Failed> {
        match self.writer.write(bytes) {
            Ok(count) if count > 0 && self.writer.flush().is_ok() => Ok(count),
            _ => {
                self.faults = self.faults.saturating_add(1);
                Err(Failed)
            }
        }
    }
}
