use crate::command_line::words;
use crate::real::{RealSink, RealSource};
use asp_io::{MemSink, MemSource, Sink, Source, read_all, write_all};
use asp_top::run_single;
use std::alloc::{AllocError, Global};
use std::env::{Env, FillError};
use std::io;
use std::process::Abort;
use std::test::Fail;

/// A reader and writer whose calls all fail.
#[derive(Drop)]
struct Broken;

impl io::Read for Broken {
    fn read(&mut self, _buf: &mut [u8]) -> io::Result<usize> {
        Err(io::Error::from(io::ErrorKind::Other))
    }
}

impl io::Write for Broken {
    fn write(&mut self, _buf: &[u8]) -> io::Result<usize> {
        Err(io::Error::from(io::ErrorKind::Other))
    }

    fn flush(&mut self) -> io::Result<()> {
        Ok(())
    }
}

#[test]
fn real_forms_hand_on_bytes_and_errors(rt: HostRuntime) -> Result<(), Fail> {
    let alloc: Global = rt.alloc();
    let mut source = RealSource::new(b"%@exists".as_slice());
    let bytes = read_all(alloc, &mut source, 1000)?;
    assert_eq!(rt; bytes.as_slice(), b"%@exists".as_slice());

    let mut taken: Vec<u8> = Vec::new(alloc);
    let mut sink = RealSink::new(&mut taken);
    assert!(rt; write_all(&mut sink, b"COHERENT\n").is_ok());
    assert_eq!(rt; taken.as_slice(), b"COHERENT\n".as_slice());

    let mut buf = [0u8; 4];
    assert!(rt; RealSource::new(Broken).read(&mut buf).is_err());
    assert!(rt; RealSink::new(Broken).write(b"a").is_err());
    Ok(())
}

/// A command line, with the program's name first.
#[derive(Drop)]
struct CommandLine<'a> {
    words: &'a [&'a [u8]],
}

impl Env for CommandLine<'_> {
    fn arg(&self, i: usize, buf: &mut [u8]) -> Result<usize, FillError> {
        let Some(word) = self.words.get(i) else {
            return Err(FillError::NotPresent);
        };
        if word.len() > buf.len() {
            return Err(FillError::TooLong);
        }
        buf[..word.len()].copy_from_slice(word);
        Ok(word.len())
    }

    fn var(&self, _name: &str, _buf: &mut [u8]) -> Result<usize, FillError> {
        Err(FillError::NotPresent)
    }

    fn var_at(&self, _i: usize, _buf: &mut [u8]) -> Result<usize, FillError> {
        Err(FillError::NotPresent)
    }
}

/// Command lines, and what a run of them over no bytes says.
const COMMAND_LINES: [(&[&[u8]], &str); 8] = [
    (&[b"aspq"], "aspq: word 1 refused\n"),
    (&[b"aspq", b"\xff"], "aspq: word 1 refused\n"),
    (&[b"aspq", b"", b"\xff"], "aspq: word 1 refused\n"),
    (&[b"aspq", b"solve\xff"], "aspq: word 1 refused\n"),
    (&[b"aspq", b"solve", b"\xff"], "aspq: word 2 refused\n"),
    (&[b"aspq", b"check", b"\xc3("], "aspq: word 2 refused\n"),
    (&[b"aspq", b"solve"], "aspq: no level\n"),
    (&[b"\xff", b"check"], "aspq: no level\n"),
];

/// Runs the command line over no bytes, and compares what it says.
fn check_line(
    rt: &impl Abort,
    alloc: Global,
    line: &[&[u8]],
    said: &str,
) -> Result<(), AllocError> {
    let words = words(alloc, &CommandLine { words: line })?;
    let mut source = MemSource::new(Vec::new(alloc), 1, Vec::new(alloc));
    let mut sink = MemSink::new(alloc, 100, 100, Vec::new(alloc))?;
    run_single(alloc, words.as_slice(), &mut source, &mut sink);
    assert_eq!(rt; sink.taken(), said.as_bytes());
    Ok(())
}

fn check_lines(
    rt: &impl Abort,
    alloc: Global,
    lines: &[(&[&[u8]], &str)],
) -> Result<(), AllocError> {
    for (line, said) in lines {
        check_line(rt, alloc, line, said)?;
    }
    Ok(())
}

#[test]
fn a_word_that_is_no_text_is_refused_with_its_number(rt: HostRuntime) -> Result<(), Fail> {
    Ok(check_lines(&rt, rt.alloc(), &COMMAND_LINES)?)
}

#[test]
fn long_words_are_read_whole(rt: HostRuntime) -> Result<(), Fail> {
    let alloc = rt.alloc();
    let mut long: Vec<u8> = Vec::new(alloc);
    long.resize(1_000, b'x')?;
    let words = words(
        alloc,
        &CommandLine {
            words: &[b"aspq", long.as_slice(), b"y"],
        },
    )?;
    let mut bytes = 0usize;
    for word in &words {
        bytes = bytes.saturating_add(word.len());
    }
    assert_eq!(rt; words.len(), 2);
    assert_eq!(rt; bytes, 1_001);
    Ok(())
}
