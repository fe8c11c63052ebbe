//! Bytes on their way to a sink, gathered so that few calls reach it.
ghost use Rattle.std.specs.Prelude.{◌≡◌, []};
ghost use Rattle.asp_print.specs.Written.{Writes};

use arrayvec::ArrayVec;
use asp_io::{Failed, Sink, write_all};

/// How many bytes are held at most.
const CAPACITY: usize = 4096;

/// Bytes that are held for a sink. It stands beside the sink as a parameter of its own: of a struct with both in it,
/// a contract over any sink couldn't say that the sink is still the same one.
pub(crate) type Buffer = ArrayVec<u8, CAPACITY>;

/// Writes the bytes, or holds them.
pub(crate) fn print_bytes<K: Sink>(
    sink: &mut K,
    buffer: &mut Buffer,
    bytes: &[u8],
) -> Result<(), Failed>
    ensures { Writes (K.taken sink.old) (K.taken sink.new) buffer.old.items buffer.new.items
        (K.faults sink.old) (K.faults sink.new) result bytes.now }
{
    if buffer.try_extend_from_slice(bytes).is_ok() {
        return Ok(());
    }
    flush(sink, buffer)?;
    print_first(sink, buffer, bytes)
}

/// Writes the bytes, or holds them, where none is held.
fn print_first<K: Sink>(sink: &mut K, buffer: &mut Buffer, bytes: &[u8]) -> Result<(), Failed>
    requires { buffer.old.items ≡ [] }
    ensures { Writes (K.taken sink.old) (K.taken sink.new) buffer.old.items buffer.new.items
        (K.faults sink.old) (K.faults sink.new) result bytes.now }
{
    if buffer.try_extend_from_slice(bytes).is_ok() {
        return Ok(());
    }
    write_all(sink, bytes)
}

/// Writes all bytes that are held. None is held afterwards.
pub(crate) fn flush<K: Sink>(sink: &mut K, buffer: &mut Buffer) -> Result<(), Failed>
    ensures text { Writes (K.taken sink.old) (K.taken sink.new) buffer.old.items buffer.new.items
        (K.faults sink.old) (K.faults sink.new) result [] }
    ensures empty { buffer.new.items ≡ [] }
{
    let written = write_all(sink, buffer.as_slice());
    buffer.clear();
    written
}
