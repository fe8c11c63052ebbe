//! Programs whose constants, atoms and instances keep their limits or pass one, with counts that were found by hand.
use crate::runs::{Row, refuse_rows, run_rows};
use std::test::Fail;

/// Counts up to a limit: `check` prints the program, and `solve` answers it.
const KEPT: [Row; 7] = [
    (
        "check",
        "%@exists p(1..4096).",
        "%@exists\np(1..4096).\n",
        0,
    ),
    ("solve", "%@exists p(1..512,1..512).", "COHERENT\n", 10),
    (
        "check",
        "%@exists p(1..512,1).",
        "%@exists\np(1..512,1).\n",
        0,
    ),
    (
        "check",
        "%@exists p(1..1999). :- p(X), p(Y). :- p(X). a.",
        "%@exists\np(1..1999).\n:- p(X), p(Y).\n:- p(X).\na.\n",
        0,
    ),
    (
        "solve",
        "%@exists p(1..1999). :- p(X), p(Y). :- p(X). a.",
        "INCOHERENT\n",
        20,
    ),
    (
        "check",
        "%@exists p(1..158). :- p(X), p(Y), p(Z).",
        "%@exists\np(1..158).\n:- p(X), p(Y), p(Z).\n",
        0,
    ),
    (
        "check",
        "%@exists\np(1..512,1..512).\np(1..512,1..512).\np(1..512,1..512).\np(1..512,1..512).\np(1..512,1..512).\np(1..512,1..512).\np(1..512,1..512).\np(1..512,1..512).\np(1..512,1..512).\np(1..512,1..512).\np(1..512,1..512).\np(1..512,1..512).\np(1..512,1..512).\np(1..512,1..512).\np(1..512,1..512).\np(1..512,1..132).\np(1..256,1).\n",
        "%@exists\np(1..512,1..512).\np(1..512,1..512).\np(1..512,1..512).\np(1..512,1..512).\np(1..512,1..512).\np(1..512,1..512).\np(1..512,1..512).\np(1..512,1..512).\np(1..512,1..512).\np(1..512,1..512).\np(1..512,1..512).\np(1..512,1..512).\np(1..512,1..512).\np(1..512,1..512).\np(1..512,1..512).\np(1..512,1..132).\np(1..256,1).\n",
        0,
    ),
];

/// Counts past a limit, the first one that is passed, and what comes before it.
const LARGE: [(&str, &str); 22] = [
    ("%@exists p(0..4096).", "too large: constants 4097"),
    (
        "%@exists p(1..4096). %@forall q(a).",
        "too large: constants 4097",
    ),
    (
        "%@exists p(1..4096). %@constraint :- 0 = 1.",
        "too large: constants 4097",
    ),
    (
        "%@exists p(-2147483648..2147483647).",
        "too large: constants 4294967296",
    ),
    ("%@exists p(0..4096,1..100).", "too large: constants 4097"),
    (
        "%@exists p(0..99). q(A,B,C,D) :- p(A), p(B), p(C), p(D).",
        "too large: atoms 100000100",
    ),
    ("%@exists p(1..512,1). a.", "too large: atoms 262145"),
    ("%@exists p(1..513,1).", "too large: atoms 263169"),
    (
        "%@exists p(1..2000,1,1,1,1,1).",
        "too large: atoms 1000000000000000000",
    ),
    (
        "%@exists p(0..99). :- p(A), p(B), p(C), p(D).",
        "too large: instances 100000100",
    ),
    (
        "%@exists p(1..1999). :- p(X), p(Y). :- p(X). a. :- .",
        "too large: instances 4000001",
    ),
    (
        "%@exists p(1..159). :- p(X), p(Y), p(Z).",
        "too large: instances 4019838",
    ),
    (
        "%@exists p(1..2000). {q : p(X); r : p(X), p(Y)}.",
        "too large: instances 4004000",
    ),
    (
        "%@exists p(1..2000). :- p(_), p(_).",
        "too large: instances 4002000",
    ),
    (
        "%@exists p(1..2000). :- p(X), p(Y), X < 0, Y < 0.",
        "too large: instances 4006001",
    ),
    // Fifteen intervals of 512 times 512, one of 512 times 132, one of 256, and one fact more.
    (
        "%@exists\np(1..512,1..512).\np(1..512,1..512).\np(1..512,1..512).\np(1..512,1..512).\np(1..512,1..512).\np(1..512,1..512).\np(1..512,1..512).\np(1..512,1..512).\np(1..512,1..512).\np(1..512,1..512).\np(1..512,1..512).\np(1..512,1..512).\np(1..512,1..512).\np(1..512,1..512).\np(1..512,1..512).\np(1..512,1..132).\np(1..256,1).\np(1,1).\n",
        "too large: instances 4000001",
    ),
    (
        "%@exists\np(1..512,1..512).\np(1..512,1..512).\np(1..512,1..512).\np(1..512,1..512).\np(1..512,1..512).\np(1..512,1..512).\np(1..512,1..512).\np(1..512,1..512).\np(1..512,1..512).\np(1..512,1..512).\np(1..512,1..512).\np(1..512,1..512).\np(1..512,1..512).\np(1..512,1..512).\np(1..512,1..512).\np(1..512,1..512).\n",
        "too large: instances 4194304",
    ),
    (
        "%@exists p(0..99). :- p(A), p(B), p(C), p(D), p(E), p(F), p(G), p(H), p(I).",
        "too large: instances 1000000000000000000",
    ),
    (
        "%@exists p(0..99). :- p(A), p(B), p(C), p(D), p(E), p(F), p(G), p(H), p(I), p(J).",
        "too large: instances 1000000000000000000",
    ),
    // The checks of a program as it is written come first.
    ("%@exists p(0..4096). q(X).", "unsafe variable X in rule 2"),
    (
        "%@exists p(0..4096). %@constraint a.",
        "not a constraint: rule 2",
    ),
    (
        "%@exists p(0..4096). q(1,2,3,4,5,6,7,8,9,10,11,12,13,14,15,16,17).",
        "too large: arguments 17",
    ),
];

#[test]
fn accepts_games_up_to_each_limit(rt: HostRuntime) -> Result<(), Fail> {
    run_rows(rt.alloc(), &KEPT)
}

#[test]
fn refuses_large_games(rt: HostRuntime) -> Result<(), Fail> {
    refuse_rows(rt.alloc(), &LARGE)
}
