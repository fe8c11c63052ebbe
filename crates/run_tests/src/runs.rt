//! Runs over sources and sinks in memory.
ghost use Rattle.std.specs.Prelude.{◌<◌};

use crate::rows::expect_run;
use asp_io::{MemSink, MemSource};
use asp_top::{Status, run_single};
use std::alloc::{AllocError, Global};
use std::test::Fail;

/// The words, the text, the output and the exit status of a run.
pub type Row = (&'static str, &'static str, &'static str, u8);

/// The words of a line.
fn words_of(alloc: Global, line: &str) -> Result<Vec<String>, AllocError> {
    let mut words = Vec::new(alloc);
    for word in line.split_whitespace() {
        words.push(String::from_str(alloc, word)?)?;
    }
    Ok(words)
}

/// Runs over a source and a sink, and answers how it ended.
pub fn run_over(
    alloc: Global,
    words: &str,
    source: &mut MemSource,
    sink: &mut MemSink,
) -> Result<Status, AllocError> {
    let words = words_of(alloc, words)?;
    Ok(run_single(alloc, words.as_slice(), source, sink).status)
}

/// Runs over a text with a source that gives at most `most` bytes a call.
pub fn run_into(
    alloc: Global,
    words: &str,
    text: &[u8],
    most: u32,
    sink: &mut MemSink,
) -> Result<Status, AllocError>
    requires { 0 < most }
{
    let bytes = text.to_vec(alloc)?;
    let mut source = MemSource::new(bytes, most, Vec::new(alloc));
    run_over(alloc, words, &mut source, sink)
}

/// The same with a sink that takes seven bytes a call, which is answered too.
pub fn run_text(
    alloc: Global,
    words: &str,
    text: &[u8],
    most: u32,
) -> Result<(Status, MemSink), AllocError>
    requires { 0 < most }
{
    let mut sink = MemSink::new(alloc, 200_000, 7, Vec::new(alloc))?;
    let status = run_into(alloc, words, text, most, &mut sink)?;
    Ok((status, sink))
}

/// Whether a run over a text has this output and this exit status.
pub fn is_run(alloc: Global, words: &str, text: &[u8], most: u32, expected: (&[u8], u8)) -> bool
    requires { 0 < most }
{
    match run_text(alloc, words, text, most) {
        Ok((status, sink)) => sink.taken() == expected.0 && status.code() == expected.1,
        Err(_) => false,
    }
}

/// Runs over a text, and compares the output and the exit status. A row that fails is named.
pub fn check_run(
    alloc: Global,
    words: &str,
    text: &[u8],
    most: u32,
    expected: (&[u8], u8),
    name: &str,
) -> Result<(), Fail>
    requires { 0 < most }
{
    expect_run(is_run(alloc, words, text, most, expected), words, name)
}

/// Runs each row.
pub fn run_rows(alloc: Global, rows: &[Row]) -> Result<(), Fail> {
    for (words, text, output, code) in rows {
        let expected = (output.as_bytes(), *code);
        check_run(alloc, words, text.as_bytes(), 5, expected, text)?;
    }
    Ok(())
}

/// What `solve` writes of a program, and its exit status.
fn verdict(coherent: bool) -> (&'static [u8], u8) {
    if coherent {
        (b"COHERENT\n", 10)
    } else {
        (b"INCOHERENT\n", 20)
    }
}

/// Runs `solve` over a text, and compares with whether its program is coherent.
pub fn check_verdict(alloc: Global, text: &str, coherent: bool) -> Result<(), Fail> {
    let expected = verdict(coherent);
    check_run(alloc, "solve", text.as_bytes(), 60_000, expected, text)
}

/// Runs `solve` over each text, and compares with whether its program is coherent.
pub fn solve_rows(alloc: Global, rows: &[(&str, bool)]) -> Result<(), Fail> {
    for (text, coherent) in rows {
        check_verdict(alloc, text, *coherent)?;
    }
    Ok(())
}

/// The line that refuses a text for a reason.
fn refusal(alloc: Global, reason: &str) -> Result<String, AllocError> {
    format!(in alloc; "aspq: {reason}\n")
}

/// Runs the text under both commands, which write the line.
fn check_line(alloc: Global, text: &[u8], line: &str, name: &str) -> Result<(), Fail> {
    let expected = (line.as_bytes(), 3);
    check_run(alloc, "check", text, 5, expected, name)?;
    check_run(alloc, "solve", text, 5, expected, name)
}

/// Runs the text under both commands, which refuse it for the reason.
pub fn check_refusal(alloc: Global, text: &[u8], reason: &str, name: &str) -> Result<(), Fail> {
    let line = refusal(alloc, reason)?;
    check_line(alloc, text, line.as_str(), name)
}

/// Runs each text, which is refused for its reason.
pub fn refuse_rows(alloc: Global, rows: &[(&str, &str)]) -> Result<(), Fail> {
    for (text, reason) in rows {
        check_refusal(alloc, text.as_bytes(), reason, text)?;
    }
    Ok(())
}

/// The text with the repeated part so often.
pub fn repeated(
    alloc: Global,
    first: &str,
    part: &str,
    count: u32,
    last: &str,
) -> Result<String, AllocError> {
    let mut text = String::from_str(alloc, first)?;
    for _ in 0..count {
        text.push_str(part)?;
    }
    text.push_str(last)?;
    Ok(text)
}
