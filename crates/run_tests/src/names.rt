//! One very long name beside predicates with many atoms. Over two constants a predicate of 16 arguments has 65,536 atoms,
//! in which the name would stand half a million times.
use crate::runs::{check_refusal, check_run, repeated};
use std::alloc::{AllocError, Global};
use std::test::Fail;

/// A text whose first fact has a name of 100,000 letters, and what stands behind it.
fn long_name(alloc: Global, behind: &str) -> Result<String, AllocError> {
    let mut text = repeated(alloc, "%@exists\np(", "abcdefghij", 10_000, ").\n")?;
    text.push_str(behind)?;
    Ok(text)
}

/// Runs `check` over a text that stands as it is printed.
fn check_accepted(alloc: Global, text: &str) -> Result<(), Fail> {
    let bytes = text.as_bytes();
    check_run(alloc, "check", bytes, 60_000, (bytes, 0), "long name")
}

#[test]
fn accepts_a_long_name_beside_many_atoms(rt: HostRuntime) -> Result<(), Fail> {
    let alloc = rt.alloc();
    let text = long_name(alloc, "q(c,c,c,c,c,c,c,c,c,c,c,c,c,c,c,c).\n")?;
    check_accepted(alloc, text.as_str())
}

/// What stands behind the fact, and why the text is refused for its atoms or its instances.
const LARGE: [(&str, &str); 2] = [
    // Two atoms of p, and 65,536 of each other predicate.
    (
        "q(c,c,c,c,c,c,c,c,c,c,c,c,c,c,c,c).\nr(c,c,c,c,c,c,c,c,c,c,c,c,c,c,c,c).\ns(c,c,c,c,c,c,c,c,c,c,c,c,c,c,c,c).\nt(c,c,c,c,c,c,c,c,c,c,c,c,c,c,c,c).\n",
        "too large: atoms 262146",
    ),
    // Two facts, and 65,536 instances of each of 62 elements.
    (
        "p(c).\n{r;r;r;r;r;r;r;r;r;r;r;r;r;r;r;r;r;r;r;r;r;r;r;r;r;r;r;r;r;r;r;r;r;r;r;r;r;r;r;r;r;r;r;r;r;r;r;r;r;r;r;r;r;r;r;r;r;r;r;r;r;r} :- q(A,B,C,D,E,F,G,H,I,J,K,L,M,N,O,P).\n",
        "too large: instances 4063234",
    ),
];

fn check_refused(alloc: Global, behind: &str, reason: &str) -> Result<(), Fail> {
    let text = long_name(alloc, behind)?;
    check_refusal(alloc, text.as_bytes(), reason, reason)
}

fn refuse_rows(alloc: Global, rows: &[(&str, &str)]) -> Result<(), Fail> {
    for (behind, reason) in rows {
        check_refused(alloc, behind, reason)?;
    }
    Ok(())
}

#[test]
fn refuses_large_games_beside_a_long_name(rt: HostRuntime) -> Result<(), Fail> {
    refuse_rows(rt.alloc(), &LARGE)
}
