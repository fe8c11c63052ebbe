//! Sets of atoms without variables, as pages list them.
ghost use Rattle.std.specs.Prelude.{◌≡◌, ◌<◌, ◌++◌, true, codes, length, map, option_copied, IfOk, OnOk, OnErr};
ghost use Rattle.std.specs.Io.KnownBytes.{Appends};
ghost use Rattle.std.specs.List.{join_by};
ghost use Rattle.asp_io.specs.Causes.{HasCause};
ghost use Rattle.asp_io.specs.Moved.{AppendsPrefix};
ghost use Rattle.asp_bits.specs.Places.{true_places};
ghost use Rattle.asp_defs.specs.Lines.{line};
ghost use Rattle.asp_defs.specs.Sets.{const_text, ground_atom_text, set_text, set_lines};
ghost use Rattle.asp_print.specs.Members.{members, member_at, lead_text, member_text, leads_next};
ghost use Rattle.asp_print.specs.Written.{Writes};

use crate::buffer::{Buffer, flush, print_bytes};
use crate::pieces::{Printed, print_applied, print_integer, print_name};
use asp_bits::Bits;
use asp_defs::{Bases, Const, GroundAtom};
use asp_io::{Failed, Sink};

/// Writes the set, or as much of it as the sink takes before it fails: the atoms at its true places, which are numbers of
/// the bases. It ends without a line feed.
pub fn print_set<K: Sink>(sink: &mut K, bases: &Bases, set: &Bits) -> Result<(), Failed>
    ensures all { OnOk result (Appends (K.taken sink.old) (K.taken sink.new) (set_text bases.now (true_places set.now))) }
    ensures prefix { OnErr result (AppendsPrefix (K.taken sink.old) (K.taken sink.new) (set_text bases.now (true_places set.now))) }
    ensures cause { HasCause (K.faults sink.old) (K.faults sink.new) result }
{
    let mut buffer = Buffer::new();
    print_braced(sink, &mut buffer, bases, set)?;
    flush(sink, &mut buffer)
}

/// Writes a line for each set, or as much of the lines as the sink takes before it fails.
pub fn print_sets<K: Sink>(sink: &mut K, bases: &Bases, sets: &[Bits]) -> Result<(), Failed>
    ensures all { OnOk result (Appends (K.taken sink.old) (K.taken sink.new) (set_lines bases.now (map true_places sets.now))) }
    ensures prefix { OnErr result (AppendsPrefix (K.taken sink.old) (K.taken sink.new) (set_lines bases.now (map true_places sets.now))) }
    ensures cause { HasCause (K.faults sink.old) (K.faults sink.new) result }
{
    let mut buffer = Buffer::new();
    print_lines(sink, &mut buffer, bases, sets)?;
    flush(sink, &mut buffer)
}

/// Writes a line for each set.
fn print_lines<K: Sink>(
    sink: &mut K,
    buffer: &mut Buffer,
    bases: &Bases,
    sets: &[Bits],
) -> Result<(), Failed>
    ensures { Writes (K.taken sink.old) (K.taken sink.new) buffer.old.items buffer.new.items (K.faults sink.old) (K.faults sink.new)
        result (set_lines bases.now (map true_places sets.now)) }
{
    for set in sets {
        print_set_line(sink, buffer, bases, set)?;
    }
    Ok(())
}

/// Writes the set's line.
fn print_set_line<K: Sink>(
    sink: &mut K,
    buffer: &mut Buffer,
    bases: &Bases,
    set: &Bits,
) -> Result<(), Failed>
    ensures { Writes (K.taken sink.old) (K.taken sink.new) buffer.old.items buffer.new.items (K.faults sink.old) (K.faults sink.new)
        result (line (set_text bases.now (true_places set.now))) }
{
    print_braced(sink, buffer, bases, set)?;
    print_bytes(sink, buffer, b"\n")
}

/// Writes the set.
fn print_braced<K: Sink>(
    sink: &mut K,
    buffer: &mut Buffer,
    bases: &Bases,
    set: &Bits,
) -> Result<(), Failed>
    ensures { Writes (K.taken sink.old) (K.taken sink.new) buffer.old.items buffer.new.items (K.faults sink.old) (K.faults sink.new)
        result (set_text bases.now (true_places set.now)) }
{
    print_bytes(sink, buffer, b"{")?;
    print_members(sink, buffer, bases.atoms.as_slice(), set)?;
    print_bytes(sink, buffer, b"}")
}

/// Writes the atoms at the true places of the set, with commas and blanks between them.
fn print_members<K: Sink>(
    sink: &mut K,
    buffer: &mut Buffer,
    atoms: &[GroundAtom],
    set: &Bits,
) -> Result<(), Failed>
    ensures { Writes (K.taken sink.old) (K.taken sink.new) buffer.old.items buffer.new.items (K.faults sink.old) (K.faults sink.new)
        result (join_by ground_atom_text (codes ", ") (members atoms.now set.now)) }
{
    let mut is_led = false;
    for place in 0..set.len() {
        is_led = print_member(sink, buffer, is_led, member(atoms, set, place))?;
    }
    Ok(())
}

/// The atom at a place, where the set has it.
fn member<'a>(atoms: &'a [GroundAtom], set: &Bits, place: u32) -> Option<&'a GroundAtom>
    requires { place < length set.now }
    ensures { option_copied result ≡ member_at atoms.now set.now place }
{
    if set.get(place) {
        atoms.get(place as usize)
    } else {
        None
    }
}

/// Writes the atom, if there is one, behind a comma and a blank where another one leads it. Whether one leads the next.
fn print_member<K: Sink>(
    sink: &mut K,
    buffer: &mut Buffer,
    is_led: bool,
    atom: Option<&GroundAtom>,
) -> Result<bool, Failed>
    ensures text { Writes (K.taken sink.old) (K.taken sink.new) buffer.old.items buffer.new.items (K.faults sink.old) (K.faults sink.new)
        result (member_text is_led (option_copied atom.entry)) }
    ensures next { IfOk result (λ next. next ≡ leads_next is_led (option_copied atom.entry)) }
{
    match atom {
        None => Ok(is_led),
        Some(atom) => print_behind_lead(sink, buffer, is_led, atom),
    }
}

/// Writes the atom, behind a comma and a blank where another one leads it. It leads the next.
fn print_behind_lead<K: Sink>(
    sink: &mut K,
    buffer: &mut Buffer,
    is_led: bool,
    atom: &GroundAtom,
) -> Result<bool, Failed>
    ensures text { Writes (K.taken sink.old) (K.taken sink.new) buffer.old.items buffer.new.items (K.faults sink.old) (K.faults sink.new)
        result (lead_text is_led ++ ground_atom_text atom.now) }
    ensures next { IfOk result (λ next. next ≡ true) }
{
    print_bytes(sink, buffer, lead(is_led))?;
    atom.print(sink, buffer)?;
    Ok(true)
}

/// What stands before an atom.
fn lead(is_led: bool) -> &'static [u8]
    ensures { result.now ≡ lead_text is_led }
{
    if is_led { b", " } else { b"" }
}

impl Printed for GroundAtom {
    ghost text = { ground_atom_text };

    fn print<K: Sink>(&self, sink: &mut K, buffer: &mut Buffer) -> Result<(), Failed> {
        print_applied(sink, buffer, &self.name, &self.args)
    }
}

impl Printed for Const {
    ghost text = { const_text };

    fn print<K: Sink>(&self, sink: &mut K, buffer: &mut Buffer) -> Result<(), Failed> {
        match self {
            Const::Int(value) => print_integer(sink, buffer, *value),
            Const::Sym(name) => print_name(sink, buffer, name),
        }
    }
}
