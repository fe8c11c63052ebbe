//! Printing programs and lines, against texts that were written by hand.
ghost use Rattle.std.specs.Prelude.{◌<◌};

use crate::texts::{front_of, program_of, repeated};
use asp_defs::{Kind, List, Name, NoMemory, Program, Unknown, Var, Which};
use asp_io::MemSink;
use asp_print::{Line, print_line, print_program};
use std::alloc::Global;
use std::process::Abort;

/// The lines without a name in them.
const LINES: [(Line, &str); 22] = [
    (Line::Word(2), "aspq: word 2 refused\n"),
    (Line::BadByte(0), "aspq: bad byte at 0\n"),
    (Line::BadNumber(17), "aspq: bad number at 17\n"),
    (
        Line::OpenComment(1_048_575),
        "aspq: open comment at 1048575\n",
    ),
    (Line::NoLevel, "aspq: no level\n"),
    (Line::Unfinished, "aspq: unfinished\n"),
    (Line::UnknownDirective(9), "aspq: unknown directive at 9\n"),
    (Line::BeforeLevel(10), "aspq: before a level at 10\n"),
    (
        Line::AfterConstraint(22),
        "aspq: after the constraint part at 22\n",
    ),
    (
        Line::Unexpected(u32::MAX),
        "aspq: unexpected at 4294967295\n",
    ),
    (
        Line::Unsafe(1, Var::Anon),
        "aspq: unsafe variable _ in rule 1\n",
    ),
    (Line::NotConstraint(12), "aspq: not a constraint: rule 12\n"),
    (Line::UniversalFirst, "aspq: first level is universal\n"),
    (Line::AfterRefused, "aspq: after refused\n"),
    (Line::Coherent, "COHERENT\n"),
    (Line::Incoherent, "INCOHERENT\n"),
    (Line::More, "MORE\n"),
    (Line::End, "END\n"),
    (Line::Nodes(200), "nodes 200\n"),
    (Line::Bytes(u64::MAX), "bytes 18446744073709551615\n"),
    (Line::Atoms(120_400), "atoms 120400\n"),
    (Line::First(0), "first 0\n"),
];

/// The lines of limits.
const LIMITS: [(Which, u64, &str); 8] = [
    (Which::Bytes, 1_048_577, "aspq: too large: bytes 1048577\n"),
    (Which::Levels, 17, "aspq: too large: levels 17\n"),
    (Which::Arguments, 9, "aspq: too large: arguments 9\n"),
    (Which::Literals, 65, "aspq: too large: literals 65\n"),
    (Which::Variables, 17, "aspq: too large: variables 17\n"),
    (Which::Constants, 4097, "aspq: too large: constants 4097\n"),
    (Which::Atoms, 262_145, "aspq: too large: atoms 262145\n"),
    (
        Which::Instances,
        1_000_000_000_000_000_000,
        "aspq: too large: instances 1000000000000000000\n",
    ),
];

/// The lines of budgets.
const BUDGETS: [(Kind, u32, u64, &str); 4] = [
    (Kind::Search, 3, 10_000_000, "UNKNOWN search 3 10000000\n"),
    (Kind::Search, 1, 1, "UNKNOWN search 1 1\n"),
    (Kind::Minimal, 17, 500, "UNKNOWN minimal 17 500\n"),
    (Kind::Store, 2, 20_000_000, "UNKNOWN store 2 20000000\n"),
];

/// Whether what is printed of a line is this text.
fn prints(alloc: Global, line: &Line, expected: &str) -> Result<bool, NoMemory> {
    let mut sink = MemSink::new(alloc, 100, 100, Vec::new(alloc))?;
    let is_whole = print_line(&mut sink, line).is_ok();
    Ok(front_of(expected.as_bytes(), sink.taken(), is_whole) == Some(expected.len()))
}

/// Prints each line.
fn print_lines(rt: &impl Abort, alloc: Global, rows: &[(Line, &str)]) -> Result<(), NoMemory> {
    for (line, expected) in rows {
        assert!(rt; prints(alloc, line, expected)?, "{expected}");
    }
    Ok(())
}

/// Prints the line of each limit.
fn print_limits(
    rt: &impl Abort,
    alloc: Global,
    rows: &[(Which, u64, &str)],
) -> Result<(), NoMemory> {
    for (which, count, expected) in rows {
        let line = Line::TooLarge(*which, *count);
        assert!(rt; prints(alloc, &line, expected)?, "{expected}");
    }
    Ok(())
}

/// Prints the line of each budget.
fn print_budgets(
    rt: &impl Abort,
    alloc: Global,
    rows: &[(Kind, u32, u64, &str)],
) -> Result<(), NoMemory> {
    for (kind, level, budget, expected) in rows {
        let line = Line::Unknown(Unknown {
            kind: *kind,
            level: *level,
            budget: *budget,
        });
        assert!(rt; prints(alloc, &line, expected)?, "{expected}");
    }
    Ok(())
}

#[test]
fn prints_lines(rt: HostRuntime) -> Result<(), NoMemory> {
    print_lines(&rt, rt.alloc(), &LINES)?;
    print_limits(&rt, rt.alloc(), &LIMITS)?;
    print_budgets(&rt, rt.alloc(), &BUDGETS)
}

#[test]
fn prints_the_name_of_an_unsafe_variable(rt: HostRuntime) -> Result<(), NoMemory> {
    let alloc = rt.alloc();
    let line = Line::Unsafe(4, Var::Named(Name::from_slice(alloc, b"Xs_1")?));
    assert!(rt; prints(alloc, &line, "aspq: unsafe variable Xs_1 in rule 4\n")?);
    Ok(())
}

/// The same for what a sink has of a program that was printed into it. A call takes at most `most` bytes, and the calls
/// of a list fail.
fn front_len(
    alloc: Global,
    program: &Program,
    most: u32,
    failing: &[u32],
    expected: &[u8],
) -> Result<Option<usize>, NoMemory>
    requires { 0 < most }
{
    let mut sink = MemSink::new(alloc, 100_000, most, Vec::from_slice(alloc, failing)?)?;
    let is_whole = print_program(&mut sink, program).is_ok();
    Ok(front_of(expected, sink.taken(), is_whole))
}

/// The same for the program of a text, and nothing where the text is refused or memory runs out.
fn printed(alloc: Global, text: &[u8], most: u32, failing: &[u32], expected: &[u8]) -> Option<usize>
    requires { 0 < most }
{
    match program_of(alloc, text) {
        Ok(program) => front_len(alloc, &program, most, failing, expected).unwrap_or(None),
        Err(_) => None,
    }
}

/// A text with every form, the ends of 32 bits among its numbers.
const EVERY_FORM: &str = "\
    %@exists p(-2147483648, -007,-0, 2147483647,aB_9,X1,_,-3..12). % terms\n\
    a|b( X );c():-c(X,_),not d. %@forall{in;out:not r,X<3}:-s.\n\
    {}.%* none *%:-e.%@exists\t%@constraint\r\n\
    :-X=-1,X<>-1,X<-1,X<=-1,X>-1,X>=-1. :-.";

/// Its canonical text.
const CANONICAL: &str = "%@exists\n\
    p(-2147483648,-7,0,2147483647,aB_9,X1,_,-3..12).\n\
    a | b(X) | c :- c(X,_), not d.\n\
    %@forall\n\
    {in; out : not r, X < 3} :- s.\n\
    {}.\n\
    :- e.\n\
    %@exists\n\
    %@constraint\n\
    :- X = -1, X != -1, X < -1, X <= -1, X > -1, X >= -1.\n\
    :- .\n";

/// Texts and their canonical texts.
const PROGRAMS: [(&str, &str); 7] = [
    ("%@forall", "%@forall\n"),
    ("%@exists a.", "%@exists\na.\n"),
    ("%@exists a.%@constraint", "%@exists\na.\n"),
    (
        "%@exists - a:-not -b,-c( X ),-2<X. {-d: -e;f}.%@constraint:--a.",
        "%@exists\n-a :- not -b, -c(X), -2 < X.\n{-d : -e; f}.\n%@constraint\n:- -a.\n",
    ),
    (
        "%@exists 1{a;b:c}2:-d. -0{a}. {a}007.",
        "%@exists\n1 {a; b : c} 2 :- d.\n0 {a}.\n{a} 7.\n",
    ),
    (
        "%@forall -2147483648{}2147483647. 2{-p(-1)}1.",
        "%@forall\n-2147483648 {} 2147483647.\n2 {-p(-1)} 1.\n",
    ),
    (EVERY_FORM, CANONICAL),
];

/// Prints each program into a sink of which a call takes at most so many bytes.
fn print_programs(rt: &impl Abort, alloc: Global, rows: &[(&str, &str)], most: u32)
    requires { 0 < most }
{
    for (text, expected) in rows {
        let front = printed(alloc, text.as_bytes(), most, &[], expected.as_bytes());
        assert!(rt;
            front == Some(expected.len()),
            "{text}, {most} bytes a call"
        );
    }
}

#[test]
fn prints_programs(rt: HostRuntime) {
    for most in [1, 2, 7, 1000] {
        print_programs(&rt, rt.alloc(), &PROGRAMS, most);
    }
}

#[test]
fn prints_nothing_of_an_empty_program(rt: HostRuntime) -> Result<(), NoMemory> {
    let alloc = rt.alloc();
    let program = Program {
        levels: List::new(alloc),
        cons: List::new(alloc),
    };
    assert!(rt; front_len(alloc, &program, 1, &[], b"")? == Some(0));
    Ok(())
}

/// Prints the program of a text into sinks of which one call fails, each of the first ones in turn.
fn fail_each(rt: &impl Abort, alloc: Global, text: &[u8], most: u32, calls: u32, expected: &[u8])
    requires { 0 < most }
{
    for failing in 1..calls {
        let front = printed(alloc, text, most, &[failing], expected);
        assert!(rt; front.is_some(), "call {failing} of {most} bytes fails");
    }
}

/// Prints the program of a text that is longer than what these calls write, each of which fails in turn.
fn cut_each(rt: &impl Abort, alloc: Global, text: &[u8], most: u32, calls: u32)
    requires { 0 < most }
{
    for failing in 1..calls {
        let front = printed(alloc, text, most, &[failing], text);
        assert!(rt; front.is_some(), "call {failing} of {most} bytes fails");
        assert!(rt;
            front != Some(text.len()),
            "call {failing} of {most} bytes isn't made"
        );
    }
}

#[test]
fn leaves_a_front_at_a_fault(rt: HostRuntime) {
    let (text, expected) = (EVERY_FORM.as_bytes(), CANONICAL.as_bytes());
    fail_each(&rt, rt.alloc(), text, 1, 400, expected);
    fail_each(&rt, rt.alloc(), text, 100, 400, expected);
}

/// The canonical text of so many facts.
fn facts(alloc: Global, count: u32) -> Result<String, NoMemory> {
    let mut text = String::from_str(alloc, "%@exists\n")?;
    for number in 0..count {
        write!(text, "edge({number},-1000000).\n")?;
    }
    Ok(text)
}

#[test]
fn prints_more_than_is_gathered(rt: HostRuntime) -> Result<(), NoMemory> {
    let alloc = rt.alloc();
    let text = facts(alloc, 1000)?;
    let text = text.as_bytes();
    // 10, 90 and 900 numbers of 1, 2 and 3 digits, each with 17 other bytes
    let len = 9 + 1000 * 17 + 10 + 180 + 2700;
    assert!(rt; printed(alloc, text, 100_000, &[], text) == Some(len));
    cut_each(&rt, alloc, text, 4000, 9);
    Ok(())
}

#[test]
fn prints_a_name_that_is_longer_than_what_is_gathered(rt: HostRuntime) -> Result<(), NoMemory> {
    let alloc = rt.alloc();
    let text = repeated(alloc, "%@exists\n", "x", 5000, ".\n")?;
    let text = text.as_slice();
    assert!(rt; printed(alloc, text, 6000, &[], text) == Some(9 + 5000 + 2));
    Ok(())
}
