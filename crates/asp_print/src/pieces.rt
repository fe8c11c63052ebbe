//! The pieces that texts are made of: bytes, numbers, and lists of parts.
ghost use Rattle.std.specs.Prelude.{List as Sequence, ℕ, ◌++◌, decimal};
ghost use Rattle.std.specs.Fmt.{signed_decimal};
ghost use Rattle.std.specs.List.{flat_map, join_by};
ghost use Rattle.asp_defs.specs.Canonical.{applied_text};
ghost use Rattle.asp_print.specs.Written.{Writes};

use crate::buffer::{Buffer, print_bytes};
use asp_defs::{List, Name};
use asp_io::{Failed, Sink};

/// A part of a program or of a set, which has one canonical text.
pub(crate) trait Printed {
    /// The part's text.
    ghost text: { Self → Sequence ℕ };

    /// Writes the part's text.
    fn print<K: Sink>(&self, sink: &mut K, buffer: &mut Buffer) -> Result<(), Failed>
        ensures { Writes (K.taken sink.old) (K.taken sink.new) buffer.old.items buffer.new.items (K.faults sink.old) (K.faults sink.new)
            result (text self.now) };
}

/// Writes the name.
pub(crate) fn print_name<K: Sink>(
    sink: &mut K,
    buffer: &mut Buffer,
    name: &Name,
) -> Result<(), Failed>
    ensures { Writes (K.taken sink.old) (K.taken sink.new) buffer.old.items buffer.new.items (K.faults sink.old) (K.faults sink.new)
        result name.now }
{
    print_bytes(sink, buffer, name.as_slice())
}

/// Writes the integer in decimal.
pub(crate) fn print_integer<K: Sink>(
    sink: &mut K,
    buffer: &mut Buffer,
    value: i32,
) -> Result<(), Failed>
    ensures { Writes (K.taken sink.old) (K.taken sink.new) buffer.old.items buffer.new.items (K.faults sink.old) (K.faults sink.new)
        result (signed_decimal value) }
{
    let mut digits = itoa::Buffer::new();
    print_bytes(sink, buffer, digits.format(value).as_bytes())
}

/// Writes the count in decimal.
pub(crate) fn print_count<K: Sink>(
    sink: &mut K,
    buffer: &mut Buffer,
    count: u64,
) -> Result<(), Failed>
    ensures { Writes (K.taken sink.old) (K.taken sink.new) buffer.old.items buffer.new.items (K.faults sink.old) (K.faults sink.new)
        result (decimal count) }
{
    let mut digits = itoa::Buffer::new();
    print_bytes(sink, buffer, digits.format(count).as_bytes())
}

/// Writes the number in decimal.
pub(crate) fn print_number<K: Sink>(
    sink: &mut K,
    buffer: &mut Buffer,
    number: u32,
) -> Result<(), Failed>
    ensures { Writes (K.taken sink.old) (K.taken sink.new) buffer.old.items buffer.new.items (K.faults sink.old) (K.faults sink.new)
        result (decimal number) }
{
    print_count(sink, buffer, u64::from(number))
}

/// Writes the parts, one behind the other.
pub(crate) fn print_each<T: Printed, K: Sink>(
    sink: &mut K,
    buffer: &mut Buffer,
    parts: &List<T>,
) -> Result<(), Failed>
    ensures { Writes (K.taken sink.old) (K.taken sink.new) buffer.old.items buffer.new.items (K.faults sink.old) (K.faults sink.new)
        result (flat_map T.text parts.now) }
{
    print_led(sink, buffer, b"", parts.as_slice())
}

/// Writes the parts with `between` between each two.
pub(crate) fn print_joined<T: Printed, K: Sink>(
    sink: &mut K,
    buffer: &mut Buffer,
    between: &[u8],
    parts: &List<T>,
) -> Result<(), Failed>
    ensures { Writes (K.taken sink.old) (K.taken sink.new) buffer.old.items buffer.new.items (K.faults sink.old) (K.faults sink.new)
        result (join_by T.text between.now parts.now) }
{
    match parts.as_slice() {
        [] => Ok(()),
        [first, rest @ ..] => {
            first.print(sink, buffer)?;
            print_led(sink, buffer, between, rest)
        }
    }
}

/// Writes the parts, each behind `lead`.
fn print_led<T: Printed, K: Sink>(
    sink: &mut K,
    buffer: &mut Buffer,
    lead: &[u8],
    parts: &[T],
) -> Result<(), Failed>
    ensures { Writes (K.taken sink.old) (K.taken sink.new) buffer.old.items buffer.new.items (K.faults sink.old) (K.faults sink.new)
        result (flat_map (λ part. lead.now ++ T.text part) parts.now) }
{
    for part in parts {
        print_bytes(sink, buffer, lead)?;
        part.print(sink, buffer)?;
    }
    Ok(())
}

/// Writes the name, and the arguments behind it in parentheses, where there are any.
pub(crate) fn print_applied<T: Printed, K: Sink>(
    sink: &mut K,
    buffer: &mut Buffer,
    name: &Name,
    args: &List<T>,
) -> Result<(), Failed>
    ensures { Writes (K.taken sink.old) (K.taken sink.new) buffer.old.items buffer.new.items (K.faults sink.old) (K.faults sink.new)
        result (applied_text T.text name.now args.now) }
{
    print_name(sink, buffer, name)?;
    if args.is_empty() {
        return Ok(());
    }
    print_bytes(sink, buffer, b"(")?;
    print_joined(sink, buffer, b",", args)?;
    print_bytes(sink, buffer, b")")
}
