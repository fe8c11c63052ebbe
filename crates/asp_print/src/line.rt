//! The lines of refusals, of verdicts, of pages and of the demonstration.
ghost use Rattle.std.specs.Prelude.{◌≡◌, ◌++◌, codes, decimal, OnOk, OnErr};
ghost use Rattle.std.specs.Io.KnownBytes.{Appends};
ghost use Rattle.asp_io.specs.Causes.{HasCause};
ghost use Rattle.asp_io.specs.Moved.{AppendsPrefix};
ghost use Rattle.asp_defs.specs.Lines.{which_text, kind_text, variable_text, unsafe_line, too_large_line, unknown_line};
ghost use Rattle.asp_print.specs.LineTexts.{line_text};
ghost use Rattle.asp_print.specs.Written.{Writes};

use crate::buffer::{Buffer, flush, print_bytes};
use crate::pieces::{print_count, print_name, print_number};
use asp_defs::{Kind, Unknown, Var, Which};
use asp_io::{Failed, Sink};

/// A line of the output. Places are byte offsets from 0; words, rules and levels are numbered from 1.
#[derive(Debug, Drop)]
pub enum Line {
    /// The word of the command line is refused.
    Word(u32),
    /// The byte there begins no token, comment or blank.
    BadByte(u32),
    /// The number that begins there is too large or too small.
    BadNumber(u32),
    /// The block comment that begins there has no end.
    OpenComment(u32),
    /// There is no token.
    NoLevel,
    /// The tokens begin a program and are none.
    Unfinished,
    /// The directive there has another word than the known ones.
    UnknownDirective(u32),
    /// The text begins with something else than a level's directive.
    BeforeLevel(u32),
    /// A directive stands there behind the constraint part.
    AfterConstraint(u32),
    /// The token there continues no program.
    Unexpected(u32),
    /// The rule has a variable that isn't safe.
    Unsafe(u32, Var),
    /// The rule of the constraint part has a head.
    NotConstraint(u32),
    /// More than the limit were counted.
    TooLarge(Which, u64),
    /// The first level is universal, so there is nothing to list.
    UniversalFirst,
    /// The value of `--after` is no set of the first level.
    AfterRefused,
    /// The verdict that the program is coherent.
    Coherent,
    /// The verdict that the program is incoherent.
    Incoherent,
    /// The verdict that stays open, since a budget was spent.
    Unknown(Unknown),
    /// Further sets follow those of the page.
    More,
    /// No set follows those of the page.
    End,
    /// The nodes of the demonstration.
    Nodes(u32),
    /// The bytes of its text.
    Bytes(u64),
    /// The atoms of its last base.
    Atoms(u32),
    /// The true atoms of its first set.
    First(u32),
}

/// Writes the line and its line feed, or as much of it as the sink takes before it fails.
pub fn print_line<K: Sink>(sink: &mut K, line: &Line) -> Result<(), Failed>
    ensures all { OnOk result (Appends (K.taken sink.old) (K.taken sink.new) (line_text line.now)) }
    ensures prefix { OnErr result (AppendsPrefix (K.taken sink.old) (K.taken sink.new) (line_text line.now)) }
    ensures cause { HasCause (K.faults sink.old) (K.faults sink.new) result }
{
    let mut buffer = Buffer::new();
    print_any(sink, &mut buffer, line)?;
    flush(sink, &mut buffer)
}

/// Writes the line.
fn print_any<K: Sink>(sink: &mut K, buffer: &mut Buffer, line: &Line) -> Result<(), Failed>
    ensures { Writes (K.taken sink.old) (K.taken sink.new) buffer.old.items buffer.new.items (K.faults sink.old) (K.faults sink.new)
        result (line_text line.now) }
{
    match line {
        Line::Word(number) => print_around(sink, buffer, b"aspq: word ", *number, b" refused\n"),
        Line::BadByte(place) => print_around(sink, buffer, b"aspq: bad byte at ", *place, b"\n"),
        Line::BadNumber(place) => print_around(
            sink,
            buffer,
            b"aspq: bad number at ",
            *place,
            b"\n",
        ),
        Line::OpenComment(place) => print_around(
            sink,
            buffer,
            b"aspq: open comment at ",
            *place,
            b"\n",
        ),
        Line::NoLevel => print_bytes(sink, buffer, b"aspq: no level\n"),
        Line::Unfinished => print_bytes(sink, buffer, b"aspq: unfinished\n"),
        Line::UnknownDirective(place) => {
            print_around(sink, buffer, b"aspq: unknown directive at ", *place, b"\n")
        }
        Line::BeforeLevel(place) => print_around(
            sink,
            buffer,
            b"aspq: before a level at ",
            *place,
            b"\n",
        ),
        Line::AfterConstraint(place) => {
            print_around(
                sink,
                buffer,
                b"aspq: after the constraint part at ",
                *place,
                b"\n",
            )
        }
        Line::Unexpected(place) => print_around(
            sink,
            buffer,
            b"aspq: unexpected at ",
            *place,
            b"\n",
        ),
        Line::Unsafe(rule, variable) => print_unsafe(sink, buffer, *rule, variable),
        Line::NotConstraint(rule) => {
            print_around(sink, buffer, b"aspq: not a constraint: rule ", *rule, b"\n")
        }
        Line::TooLarge(which, count) => print_too_large(sink, buffer, *which, *count),
        Line::UniversalFirst => print_bytes(sink, buffer, b"aspq: first level is universal\n"),
        Line::AfterRefused => print_bytes(sink, buffer, b"aspq: after refused\n"),
        Line::Coherent => print_bytes(sink, buffer, b"COHERENT\n"),
        Line::Incoherent => print_bytes(sink, buffer, b"INCOHERENT\n"),
        Line::Unknown(unknown) => print_unknown(sink, buffer, unknown),
        Line::More => print_bytes(sink, buffer, b"MORE\n"),
        Line::End => print_bytes(sink, buffer, b"END\n"),
        Line::Nodes(count) => print_around(sink, buffer, b"nodes ", *count, b"\n"),
        Line::Bytes(count) => print_around_count(sink, buffer, b"bytes ", *count, b"\n"),
        Line::Atoms(count) => print_around(sink, buffer, b"atoms ", *count, b"\n"),
        Line::First(count) => print_around(sink, buffer, b"first ", *count, b"\n"),
    }
}

/// Writes the number between two texts.
fn print_around<K: Sink>(
    sink: &mut K,
    buffer: &mut Buffer,
    before: &[u8],
    number: u32,
    after: &[u8],
) -> Result<(), Failed>
    ensures { Writes (K.taken sink.old) (K.taken sink.new) buffer.old.items buffer.new.items (K.faults sink.old) (K.faults sink.new)
        result (before.now ++ decimal number ++ after.now) }
{
    print_around_count(sink, buffer, before, u64::from(number), after)
}

/// Writes the count between two texts.
fn print_around_count<K: Sink>(
    sink: &mut K,
    buffer: &mut Buffer,
    before: &[u8],
    count: u64,
    after: &[u8],
) -> Result<(), Failed>
    ensures { Writes (K.taken sink.old) (K.taken sink.new) buffer.old.items buffer.new.items (K.faults sink.old) (K.faults sink.new)
        result (before.now ++ decimal count ++ after.now) }
{
    print_bytes(sink, buffer, before)?;
    print_count(sink, buffer, count)?;
    print_bytes(sink, buffer, after)
}

/// Writes the line of a rule with an unsafe variable.
fn print_unsafe<K: Sink>(
    sink: &mut K,
    buffer: &mut Buffer,
    rule: u32,
    variable: &Var,
) -> Result<(), Failed>
    ensures { Writes (K.taken sink.old) (K.taken sink.new) buffer.old.items buffer.new.items (K.faults sink.old) (K.faults sink.new)
        result (unsafe_line rule variable.now) }
{
    print_bytes(sink, buffer, b"aspq: unsafe variable ")?;
    print_variable(sink, buffer, variable)?;
    print_bytes(sink, buffer, b" in rule ")?;
    print_number(sink, buffer, rule)?;
    print_bytes(sink, buffer, b"\n")
}

/// Writes the variable; a nameless one is written as in the text.
fn print_variable<K: Sink>(sink: &mut K, buffer: &mut Buffer, variable: &Var) -> Result<(), Failed>
    ensures { Writes (K.taken sink.old) (K.taken sink.new) buffer.old.items buffer.new.items (K.faults sink.old) (K.faults sink.new)
        result (variable_text variable.now) }
{
    match variable {
        Var::Named(name) => print_name(sink, buffer, name),
        Var::Anon => print_bytes(sink, buffer, b"_"),
    }
}

/// Writes the line of a program that is too large.
fn print_too_large<K: Sink>(
    sink: &mut K,
    buffer: &mut Buffer,
    which: Which,
    count: u64,
) -> Result<(), Failed>
    ensures { Writes (K.taken sink.old) (K.taken sink.new) buffer.old.items buffer.new.items (K.faults sink.old) (K.faults sink.new)
        result (too_large_line which count) }
{
    print_bytes(sink, buffer, b"aspq: too large: ")?;
    print_counted(sink, buffer, which)?;
    print_bytes(sink, buffer, b" ")?;
    print_count(sink, buffer, count)?;
    print_bytes(sink, buffer, b"\n")
}

/// Writes the name of what a limit counts.
fn print_counted<K: Sink>(sink: &mut K, buffer: &mut Buffer, which: Which) -> Result<(), Failed>
    ensures { Writes (K.taken sink.old) (K.taken sink.new) buffer.old.items buffer.new.items (K.faults sink.old) (K.faults sink.new)
        result (which_text which) }
{
    print_bytes(sink, buffer, counted(which))
}

/// The name of what a limit counts.
fn counted(which: Which) -> &'static [u8]
    ensures { result.now ≡ which_text which }
{
    match which {
        Which::Bytes => b"bytes",
        Which::Levels => b"levels",
        Which::Arguments => b"arguments",
        Which::Literals => b"literals",
        Which::Variables => b"variables",
        Which::Constants => b"constants",
        Which::Atoms => b"atoms",
        Which::Instances => b"instances",
    }
}

/// Writes the verdict that stays open.
fn print_unknown<K: Sink>(
    sink: &mut K,
    buffer: &mut Buffer,
    unknown: &Unknown,
) -> Result<(), Failed>
    ensures { Writes (K.taken sink.old) (K.taken sink.new) buffer.old.items buffer.new.items (K.faults sink.old) (K.faults sink.new)
        result (unknown_line unknown.now) }
{
    print_bytes(sink, buffer, b"UNKNOWN ")?;
    print_spent(sink, buffer, unknown.kind)?;
    print_bytes(sink, buffer, b" ")?;
    print_number(sink, buffer, unknown.level)?;
    print_bytes(sink, buffer, b" ")?;
    print_count(sink, buffer, unknown.budget)?;
    print_bytes(sink, buffer, b"\n")
}

/// Writes the name of a budget.
fn print_spent<K: Sink>(sink: &mut K, buffer: &mut Buffer, kind: Kind) -> Result<(), Failed>
    ensures { Writes (K.taken sink.old) (K.taken sink.new) buffer.old.items buffer.new.items (K.faults sink.old) (K.faults sink.new)
        result (kind_text kind) }
{
    print_bytes(sink, buffer, spent(kind))
}

/// The name of a budget.
fn spent(kind: Kind) -> &'static [u8]
    ensures { result.now ≡ kind_text kind }
{
    match kind {
        Kind::Search => b"search",
        Kind::Minimal => b"minimal",
        Kind::Store => b"store",
    }
}
