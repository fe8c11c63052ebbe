//! What a caller of sources and sinks meets: bytes that come in pieces, faults in the middle, limits that are met exactly.
ghost use Rattle.std.specs.Prelude.{◌≤◌};

use crate::rows::{expect, expect_number};
use asp_io::{MemSink, MemSource, SureSource, read_all, write_all};
use std::alloc::{AllocError, Global};
use std::test::Fail;

/// Bytes of a call, the limit, the call that fails (from 1), and what is read of `abcde`.
type Read = (u32, u64, u32, Option<&'static str>);

const READ: [Read; 12] = [
    (1, 9, 9, Some("abcde")),
    (2, 9, 9, Some("abcde")),
    (9, 9, 9, Some("abcde")),
    (1, 5, 6, Some("abcde")),
    (1, 5, 5, None),
    (1, 6, 6, None),
    (2, 3, 3, Some("abc")),
    (4, 5, 3, Some("abcde")),
    (9, 4, 2, Some("abcd")),
    (9, 9, 1, None),
    (9, 9, 2, None),
    (1, 0, 1, Some("")),
];

/// Reads `abcde` at one byte a call at least, and at the greatest limit at most.
fn read_piecewise(
    alloc: Global,
    most: u32,
    limit: u64,
    failing: u32,
) -> Result<Option<Vec<u8>>, AllocError> {
    let bytes = b"abcde".to_vec(alloc)?;
    let mut source = MemSource::new(bytes, most.max(1), [failing].to_vec(alloc)?);
    Ok(read_all(alloc, &mut source, limit.min(1_048_577)).ok())
}

/// Whether that much is read; nothing where the reading fails.
fn is_read(alloc: Global, row: &Read) -> bool {
    let (most, limit, failing, want) = *row;
    match read_piecewise(alloc, most, limit, failing) {
        Ok(Some(bytes)) => match want {
            Some(text) => bytes.as_slice() == text.as_bytes(),
            None => false,
        },
        Ok(None) => want.is_none(),
        Err(_) => false,
    }
}

fn read_rows(alloc: Global, rows: &[Read]) -> Result<(), Fail> {
    let mut number = 0u32;
    for row in rows {
        number = number.saturating_add(1);
        expect_number(is_read(alloc, row), "read", number)?;
    }
    Ok(())
}

#[test]
fn reads_to_the_end_or_to_the_limit(rt: HostRuntime) -> Result<(), Fail> {
    read_rows(rt.alloc(), &READ)
}

/// How many bytes there are, and the limit.
const LONG: [(usize, u64); 4] = [
    (0, 9),
    (65_536, 65_536),
    (65_537, 1_048_577),
    (70_000, 69_999),
];

/// How many bytes a first and a second reading give.
fn read_twice(alloc: Global, source: &mut SureSource, limit: u64) -> Option<(usize, usize)>
    requires { limit ≤ 1048577 }
{
    let read = read_all(alloc, source, limit).ok()?.len();
    let rest = read_all(alloc, source, limit).ok()?.len();
    Some((read, rest))
}

/// Whether a first reading of so many bytes ends at the limit, and a second one gives the rest.
fn is_read_twice(alloc: Global, count: usize, limit: u64) -> bool {
    let limit = limit.min(1_048_577);
    let mut bytes = Vec::new(alloc);
    if bytes.resize(count, b'x').is_err() {
        return false;
    }
    let mut source = SureSource::new(bytes, 65_000);
    match read_twice(alloc, &mut source, limit) {
        Some((read, rest)) => {
            read as u64 == limit.min(count as u64) && rest == count.saturating_sub(read)
        }
        None => false,
    }
}

fn read_long_rows(alloc: Global, rows: &[(usize, u64)]) -> Result<(), Fail> {
    let mut number = 0u32;
    for (count, limit) in rows {
        number = number.saturating_add(1);
        expect_number(is_read_twice(alloc, *count, *limit), "read twice", number)?;
    }
    Ok(())
}

#[test]
fn reads_more_than_one_piece(rt: HostRuntime) -> Result<(), Fail> {
    read_long_rows(rt.alloc(), &LONG)
}

/// Room, bytes of a call, the call that fails (from 1), and what the sink holds of `abcde`.
type Written = (u32, u32, u32, &'static str);

const WRITTEN: [Written; 11] = [
    (9, 1, 9, "abcde"),
    (5, 2, 4, "abcde"),
    (5, 9, 2, "abcde"),
    (9, 1, 1, ""),
    (9, 1, 2, "a"),
    (9, 1, 3, "ab"),
    (9, 1, 4, "abc"),
    (9, 1, 5, "abcd"),
    (4, 9, 9, "abcd"),
    (4, 1, 9, "abcd"),
    (0, 9, 9, ""),
];

/// Writes `abcde` at one byte a call at least, and tells whether it was all written.
fn write_piecewise(
    alloc: Global,
    room: u32,
    most: u32,
    failing: u32,
) -> Result<(MemSink, bool), AllocError> {
    let mut sink = MemSink::new(alloc, room, most.max(1), [failing].to_vec(alloc)?)?;
    let written = write_all(&mut sink, b"abcde").is_ok();
    Ok((sink, written))
}

/// Whether the sink holds that much, and tells whether it is all.
fn is_written(alloc: Global, row: &Written) -> bool {
    let (room, most, failing, want) = *row;
    match write_piecewise(alloc, room, most, failing) {
        Ok((sink, written)) => sink.taken() == want.as_bytes() && written == (want.len() == 5),
        Err(_) => false,
    }
}

fn write_rows(alloc: Global, rows: &[Written]) -> Result<(), Fail> {
    let mut number = 0u32;
    for row in rows {
        number = number.saturating_add(1);
        expect_number(is_written(alloc, row), "write", number)?;
    }
    Ok(())
}

#[test]
fn writes_all_or_a_prefix(rt: HostRuntime) -> Result<(), Fail> {
    write_rows(rt.alloc(), &WRITTEN)
}

#[test]
fn writes_nothing_without_a_call(rt: HostRuntime) -> Result<(), Fail> {
    let alloc = rt.alloc();
    let mut sink = MemSink::new(alloc, 0, 1, [1].to_vec(alloc)?)?;
    expect(write_all(&mut sink, b"").is_ok(), "nothing to write")
}
