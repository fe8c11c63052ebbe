//! Texts that reach a limit on programs or on bytes, and those that pass it by one.
use crate::runs::{check_refusal, check_run, repeated};
use std::alloc::{AllocError, Global};
use std::test::Fail;

/// The refusal of a text that passes a limit by one, and the canonical text of a program that reaches it: what stands
/// first, what is repeated until the limit is reached, how often, and what stands last.
type Limit = (&'static str, &'static str, &'static str, u32, &'static str);

const LIMITS: [Limit; 7] = [
    ("too large: levels 17", "%@exists\n", "%@forall\n", 15, ""),
    ("too large: arguments 17", "%@exists\np(1", ",a", 15, ").\n"),
    (
        "too large: literals 65",
        "%@exists\n:- a",
        ", not a",
        63,
        ".\n",
    ),
    ("too large: literals 65", "%@exists\na", " | a", 63, ".\n"),
    (
        "too large: literals 65",
        "%@exists\n{a : b, c",
        ", 1 < 2",
        60,
        "} :- d.\n",
    ),
    (
        "too large: variables 17",
        "%@exists\n:- p(_)",
        ", p(_)",
        15,
        ".\n",
    ),
    (
        "too large: variables 17",
        "%@exists\n:- p(X,Y), q(X)",
        ", p(_)",
        14,
        ".\n",
    ),
];

fn limits() -> &'static [Limit] {
    &LIMITS
}

/// Runs `check` over the text that reaches its limit.
fn check_accepted(alloc: Global, row: &Limit) -> Result<(), Fail> {
    let (refusal, first, part, count, last) = *row;
    let text = repeated(alloc, first, part, count, last)?;
    let bytes = text.as_bytes();
    check_run(alloc, "check", bytes, 9, (bytes, 0), refusal)
}

fn accept_rows(alloc: Global, rows: &[Limit]) -> Result<(), Fail> {
    for row in rows {
        check_accepted(alloc, row)?;
    }
    Ok(())
}

#[test]
fn accepts_up_to_each_limit(rt: HostRuntime) -> Result<(), Fail> {
    accept_rows(rt.alloc(), limits())
}

/// Runs the text that passes its limit by one.
fn check_refused(alloc: Global, row: &Limit) -> Result<(), Fail> {
    let (refusal, first, part, count, last) = *row;
    let text = repeated(alloc, first, part, count.saturating_add(1), last)?;
    check_refusal(alloc, text.as_bytes(), refusal, first)
}

fn refuse_rows(alloc: Global, rows: &[Limit]) -> Result<(), Fail> {
    for row in rows {
        check_refused(alloc, row)?;
    }
    Ok(())
}

#[test]
fn refuses_past_each_limit(rt: HostRuntime) -> Result<(), Fail> {
    refuse_rows(rt.alloc(), limits())
}

/// The words, how a text begins, the length to which blanks bring it, its output, the exit status, and the row's name.
type Long = (
    &'static str,
    &'static str,
    usize,
    &'static str,
    u8,
    &'static str,
);

/// The greatest length, and one byte more.
const LONG: [Long; 6] = [
    (
        "solve",
        "",
        1_048_576,
        "aspq: no level\n",
        3,
        "blanks of the greatest length",
    ),
    (
        "solve",
        "",
        1_048_577,
        "aspq: too large: bytes 1048577\n",
        3,
        "blanks past the greatest length",
    ),
    (
        "solve",
        "%@exists",
        1_048_576,
        "COHERENT\n",
        10,
        "a level of the greatest length",
    ),
    (
        "solve",
        "%@exists",
        1_048_577,
        "aspq: too large: bytes 1048577\n",
        3,
        "a level past the greatest length",
    ),
    (
        "check",
        "%@exists",
        1_048_576,
        "%@exists\n",
        0,
        "a level of the greatest length",
    ),
    (
        "check",
        "%@exists",
        1_048_577,
        "aspq: too large: bytes 1048577\n",
        3,
        "a level past the greatest length",
    ),
];

/// The text, with blanks behind it up to so many bytes.
fn lengthened(alloc: Global, text: &str, count: usize) -> Result<Vec<u8>, AllocError> {
    let mut bytes = text.as_bytes().to_vec(alloc)?;
    bytes.resize(count, b' ')?;
    Ok(bytes)
}

/// Runs a text at its length.
fn check_long(alloc: Global, row: &Long) -> Result<(), Fail> {
    let (words, text, length, output, code, name) = *row;
    let bytes = lengthened(alloc, text, length)?;
    let expected = (output.as_bytes(), code);
    check_run(alloc, words, bytes.as_slice(), 60_000, expected, name)
}

fn run_long_rows(alloc: Global, rows: &[Long]) -> Result<(), Fail> {
    for row in rows {
        check_long(alloc, row)?;
    }
    Ok(())
}

#[test]
fn refuses_a_text_that_is_too_long(rt: HostRuntime) -> Result<(), Fail> {
    run_long_rows(rt.alloc(), &LONG)
}

#[test]
fn solves_facts_of_the_greatest_length(rt: HostRuntime) -> Result<(), Fail> {
    let text = repeated(rt.alloc(), "%@exists ", "a.", 524_283, "")?;
    let expected = ("COHERENT\n".as_bytes(), 10);
    check_run(
        rt.alloc(),
        "solve",
        text.as_bytes(),
        60_000,
        expected,
        "facts up to the greatest length",
    )
}
