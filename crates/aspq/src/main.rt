//! The program: standard input, standard output and the words of the command line, handed to the top call.
//!
//! In reading order: `real` has standard input and output as a source and a sink, `command_line` has the
//! words of the command line.
#![tactic(auto)]

mod command_line;
mod real;
#[cfg(test)]
mod tests;

use asp_top::{Status, run_single};
use command_line::words;
use real::{RealSink, RealSource};
use std::process::ExitCode;

fn main(rt: HostRuntime) -> ExitCode {
    let status = match words(rt.alloc(), &rt) {
        Ok(words) => {
            let mut source = RealSource::new(rt.stdin());
            let mut sink = RealSink::new(rt.stdout());
            run_single(rt.alloc(), &words, &mut source, &mut sink).status
        }
        Err(_) => Status::Memory,
    };
    ExitCode::from(status.code())
}
