//! Sources and sinks of few bytes a call, which fail at each call in turn.
use crate::rows::{expect, expect_number};
use crate::runs::{run_into, run_over};
use asp_io::{MemSink, MemSource};
use asp_top::Status;
use std::alloc::{AllocError, Global};
use std::test::Fail;

/// The text of each run: 33 bytes.
const TEXT: &str = "%@exists\na :- not b.\nb :- not a.\n";

/// Words, and the output and the exit status over the text.
type Outputs = (&'static str, &'static str, u8);

const OUTPUTS: [Outputs; 3] = [
    ("solve", "COHERENT\n", 10),
    ("check", TEXT, 0),
    ("", "aspq: word 1 refused\n", 2),
];

/// Runs with a source that gives a byte a call and a sink that takes one and whose call number `failing` fails.
fn run_failing_sink(
    alloc: Global,
    words: &str,
    failing: u32,
) -> Result<(Status, MemSink), AllocError> {
    let mut sink = MemSink::new(alloc, 100, 1, [failing].to_vec(alloc)?)?;
    let status = run_into(alloc, words, TEXT.as_bytes(), 1, &mut sink)?;
    Ok((status, sink))
}

/// Whether such a run ends at a call that writes, with this output so far.
fn is_write_fault(alloc: Global, words: &str, failing: u32, output: &[u8]) -> bool {
    match run_failing_sink(alloc, words, failing) {
        Ok((status, sink)) => status == Status::Write && sink.taken() == output,
        Err(_) => false,
    }
}

/// Lets each call fail that writes a byte of the output.
fn fail_each_write(alloc: Global, words: &str, output: &[u8]) -> Result<(), Fail> {
    let mut failing = 1u32;
    for held in 0..output.len() {
        let stops = is_write_fault(alloc, words, failing, &output[..held]);
        expect_number(stops, words, failing)?;
        failing = failing.saturating_add(1);
    }
    Ok(())
}

fn fail_rows(alloc: Global, rows: &[Outputs]) -> Result<(), Fail> {
    for (words, output, _) in rows {
        fail_each_write(alloc, words, output.as_bytes())?;
    }
    Ok(())
}

#[test]
fn stops_where_the_sink_fails(rt: HostRuntime) -> Result<(), Fail> {
    fail_rows(rt.alloc(), &OUTPUTS)
}

/// Whether a run has this output and exit status whose failing call would be one that it doesn't make.
fn is_unfailing(alloc: Global, words: &str, output: &[u8], code: u8) -> bool {
    match run_failing_sink(alloc, words, 1000) {
        Ok((status, sink)) => sink.taken() == output && status.code() == code,
        Err(_) => false,
    }
}

fn run_rows(alloc: Global, rows: &[Outputs]) -> Result<(), Fail> {
    for (words, output, code) in rows {
        expect(is_unfailing(alloc, words, output.as_bytes(), *code), words)?;
    }
    Ok(())
}

#[test]
fn ends_well_over_a_byte_a_call(rt: HostRuntime) -> Result<(), Fail> {
    run_rows(rt.alloc(), &OUTPUTS)
}

/// Runs `solve` with a source that gives four bytes a call and whose call number `failing` fails.
fn run_failing_source(
    alloc: Global,
    failing: u32,
    sink: &mut MemSink,
) -> Result<Status, AllocError> {
    let bytes = TEXT.as_bytes().to_vec(alloc)?;
    let mut source = MemSource::new(bytes, 4, [failing].to_vec(alloc)?);
    run_over(alloc, "solve", &mut source, sink)
}

/// Whether such a run ends so, with this output.
fn is_read_run(alloc: Global, failing: u32, status: Status, output: &[u8]) -> bool {
    let Ok(mut sink) = MemSink::new(alloc, 100, 1, Vec::new(alloc)) else {
        return false;
    };
    match run_failing_source(alloc, failing, &mut sink) {
        Ok(ended) => ended == status && sink.taken() == output,
        Err(_) => false,
    }
}

/// Lets each of the first calls fail: nothing is written.
fn fail_each_read(alloc: Global, calls: u32) -> Result<(), Fail> {
    for call in 0..calls {
        let failing = call.saturating_add(1);
        let stops = is_read_run(alloc, failing, Status::Read, b"");
        expect_number(stops, "solve", failing)?;
    }
    Ok(())
}

#[test]
fn stops_where_the_source_fails(rt: HostRuntime) -> Result<(), Fail> {
    // Nine calls give bytes, and the tenth tells the end.
    fail_each_read(rt.alloc(), 10)
}

#[test]
fn ends_well_where_no_call_fails(rt: HostRuntime) -> Result<(), Fail> {
    let ends = is_read_run(rt.alloc(), 11, Status::Coherent, b"COHERENT\n");
    expect(ends, "no call fails")
}
