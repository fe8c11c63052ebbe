//! The verdicts and quantified answer sets of random programs.
use crate::drawn::program;
use crate::meaning::{SETS, is_coherent, is_quantified};
use crate::programs::Program;
use crate::series::Series;
use crate::verdicts::is_outcome;
use crate::written::{put_set, text_of};
use bases_tests::rows::expect;
use std::alloc::{AllocError, Global};
use std::test::Fail;

/// The quantified answer sets in their order, each in braces.
fn sets_of(alloc: Global, program: &Program) -> Result<String, AllocError> {
    let mut text = String::new(alloc);
    for set in 0..SETS {
        if is_quantified(program, set) {
            put_set(&mut text, set)?;
        }
    }
    Ok(text)
}

/// Fails with the program's text where it has another verdict or other quantified answer sets.
fn expect_outcome(alloc: Global, program: &Program, verdict: bool) -> Result<(), Fail> {
    let text = text_of(alloc, program)?;
    let sets = sets_of(alloc, program)?;
    expect(
        is_outcome(alloc, text.as_str(), verdict, sets.as_str()),
        text.as_str(),
    )
}

/// Decides the next programs of a series, and answers how many are coherent.
fn decide(alloc: Global, series: &mut Series, programs: u32) -> Result<u32, Fail> {
    let mut coherent = 0u32;
    for _ in 0..programs {
        let program = program(series);
        let verdict = is_coherent(&program);
        expect_outcome(alloc, &program, verdict)?;
        if verdict {
            coherent = coherent.saturating_add(1);
        }
    }
    Ok(coherent)
}

#[test]
fn agrees_on_random_programs(rt: HostRuntime) -> Result<(), Fail> {
    let mut series = Series { state: 1 };
    let coherent = decide(rt.alloc(), &mut series, 400)?;
    expect(100 < coherent && coherent < 300, "both verdicts come")
}
