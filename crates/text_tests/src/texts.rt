//! What the tables share: texts that are made of parts, their programs, the words of their refusals, and what a row
//! expects.
ghost use Rattle.std.specs.Prelude.{IfOk};
ghost use Rattle.asp_check.specs.Condition.{IsCheckable};

use asp_defs::{Name, NoMemory, Program, TextFault};
use asp_read::read;
use std::alloc::Global;
use std::process::Abort;

/// How many bytes a text has at most.
pub const MOST_BYTES: usize = 1_048_576;

/// Adds a part to a text so many times.
pub fn add_times(text: &mut Vec<u8>, part: &[u8], times: u32) -> Result<(), NoMemory> {
    for _ in 0..times {
        text.extend_from_slice(part)?;
    }
    Ok(())
}

/// A first part, a second one so many times, and a last part.
pub fn repeated(
    alloc: Global,
    first: &str,
    part: &str,
    times: u32,
    last: &str,
) -> Result<Vec<u8>, NoMemory> {
    let mut text = Vec::new(alloc);
    add_times(&mut text, first.as_bytes(), 1)?;
    add_times(&mut text, part.as_bytes(), times)?;
    add_times(&mut text, last.as_bytes(), 1)?;
    Ok(text)
}

/// The program of a text, which may be checked. A text that is too long counts as unfinished.
pub fn program_of(alloc: Global, text: &[u8]) -> Result<Program, TextFault>
    ensures { IfOk result IsCheckable }
{
    if text.len() > MOST_BYTES {
        return Err(TextFault::Unfinished);
    }
    let program = read(alloc, text)?;
    Ok(program)
}

/// The words of a refusal.
pub fn told(alloc: Global, fault: &TextFault) -> Result<String, NoMemory> {
    format!(in alloc; "{fault}")
}

/// A name as a string.
pub fn shown(name: &Name) -> &str {
    str::from_utf8(name.as_slice()).unwrap_or("?")
}

/// Stops the test where a row gives another text than it should.
pub fn expect(rt: &impl Abort, row: &str, given: &str, expected: &str) {
    assert!(rt; given == expected, "{row}: {given}");
}

/// How many bytes were taken, if they are a front of the expected ones, and all of them exactly where no call failed.
pub fn front_of(expected: &[u8], taken: &[u8], is_whole: bool) -> Option<usize> {
    if expected.starts_with(taken) && is_whole == (taken.len() == expected.len()) {
        Some(taken.len())
    } else {
        None
    }
}
