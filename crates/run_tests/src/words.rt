//! Words, and how runs of them end over short texts.
use crate::runs::{Row, run_rows};
use std::test::Fail;

/// Words, refusals of texts in their order, and the text that `check` prints.
const WORKED: [Row; 23] = [
    ("", "%@exists", "aspq: word 1 refused\n", 2),
    ("prove", "%@exists", "aspq: word 1 refused\n", 2),
    ("Check", "%@exists", "aspq: word 1 refused\n", 2),
    ("solve solve", "%@exists", "aspq: word 2 refused\n", 2),
    ("check --log", "%@exists", "aspq: word 2 refused\n", 2),
    ("list", "%@exists", "aspq: word 1 refused\n", 2),
    ("demo 3", "%@exists", "aspq: word 1 refused\n", 2),
    ("solve --log", "%@exists", "aspq: word 2 refused\n", 2),
    ("solve --teams=1", "%@exists", "aspq: word 2 refused\n", 2),
    ("solve", "", "aspq: no level\n", 3),
    (
        "check",
        "%@exists\np(X) :- not q(X).\n",
        "aspq: unsafe variable X in rule 1\n",
        3,
    ),
    ("check", "%@exists\na :- b", "aspq: unfinished\n", 3),
    ("check", "%@foral\n", "aspq: unknown directive at 0\n", 3),
    ("check", "%@exists\n-a.\n", "%@exists\n-a.\n", 0),
    ("check", "%@exists\n1 {a} 1.\n", "%@exists\n1 {a} 1.\n", 0),
    (
        "check",
        "%@exists\np(\"x\").\n",
        "aspq: bad byte at 11\n",
        3,
    ),
    (
        "check",
        "%@exists\na(2147483648).\n",
        "aspq: bad number at 11\n",
        3,
    ),
    ("check", "a.\n", "aspq: before a level at 0\n", 3),
    ("check", "%@exists\n%* a.", "aspq: open comment at 9\n", 3),
    (
        "check",
        "%@exists\n%@constraint\n%@forall\n",
        "aspq: after the constraint part at 22\n",
        3,
    ),
    ("check", "%@exists\na b.\n", "aspq: unexpected at 11\n", 3),
    (
        "check",
        "%@exists\n%@constraint\n:- a.\np :- not q.\n",
        "aspq: not a constraint: rule 2\n",
        3,
    ),
    (
        "check",
        "%@exists\na:-b ,not c. % x\n{ d ; e:f }.\n",
        "%@exists\na :- b, not c.\n{d; e : f}.\n",
        0,
    ),
];

/// Options of `solve` in all forms, and the first word of them that can't be read.
const OPTIONS: [Row; 36] = [
    ("solve --budget=9", "%@exists", "COHERENT\n", 10),
    ("solve --budget 9", "%@exists", "COHERENT\n", 10),
    (
        "solve --budget 0009 --cells=20",
        "%@exists",
        "COHERENT\n",
        10,
    ),
    ("solve --cells=20 --budget=9", "%@exists", "COHERENT\n", 10),
    ("solve --cells 500000000", "%@exists", "COHERENT\n", 10),
    (
        "solve --budget 1000000000000000000",
        "%@exists",
        "COHERENT\n",
        10,
    ),
    ("solve --budget=0", "%@exists", "aspq: word 2 refused\n", 2),
    ("solve --budget 0", "%@exists", "aspq: word 3 refused\n", 2),
    ("solve --cells=0", "%@exists", "aspq: word 2 refused\n", 2),
    (
        "solve --cells=500000001",
        "%@exists",
        "aspq: word 2 refused\n",
        2,
    ),
    (
        "solve --cells 500000001",
        "%@exists",
        "aspq: word 3 refused\n",
        2,
    ),
    (
        "solve --budget 1000000000000000001",
        "%@exists",
        "aspq: word 3 refused\n",
        2,
    ),
    (
        "solve --budget 9999999999999999999",
        "%@exists",
        "aspq: word 3 refused\n",
        2,
    ),
    (
        "solve --budget 00000000000000000001",
        "%@exists",
        "aspq: word 3 refused\n",
        2,
    ),
    (
        "solve --budget 0000000000000000001",
        "%@exists",
        "COHERENT\n",
        10,
    ),
    ("solve --budget=", "%@exists", "aspq: word 2 refused\n", 2),
    ("solve --budget=+9", "%@exists", "aspq: word 2 refused\n", 2),
    ("solve --budget=-9", "%@exists", "aspq: word 2 refused\n", 2),
    ("solve --budget -9", "%@exists", "aspq: word 3 refused\n", 2),
    ("solve --budget 9a", "%@exists", "aspq: word 3 refused\n", 2),
    ("solve --budget 9/", "%@exists", "aspq: word 3 refused\n", 2),
    ("solve --budget 9:", "%@exists", "aspq: word 3 refused\n", 2),
    ("solve --budget", "%@exists", "aspq: word 3 refused\n", 2),
    (
        "solve --cells=5 --budget",
        "%@exists",
        "aspq: word 4 refused\n",
        2,
    ),
    (
        "solve --budget --cells=5",
        "%@exists",
        "aspq: word 3 refused\n",
        2,
    ),
    (
        "solve --budget=5 --budget=5",
        "%@exists",
        "aspq: word 3 refused\n",
        2,
    ),
    (
        "solve --budget 5 --budget 6",
        "%@exists",
        "aspq: word 4 refused\n",
        2,
    ),
    (
        "solve --cells 5 --cells=6",
        "%@exists",
        "aspq: word 4 refused\n",
        2,
    ),
    (
        "solve --budget 5 6",
        "%@exists",
        "aspq: word 4 refused\n",
        2,
    ),
    ("solve --budgets=5", "%@exists", "aspq: word 2 refused\n", 2),
    ("solve --budget5", "%@exists", "aspq: word 2 refused\n", 2),
    ("solve -budget=5", "%@exists", "aspq: word 2 refused\n", 2),
    ("solve 5", "%@exists", "aspq: word 2 refused\n", 2),
    (
        "solve --budget=5 --log",
        "%@exists",
        "aspq: word 3 refused\n",
        2,
    ),
    ("check --budget=5", "%@exists", "aspq: word 2 refused\n", 2),
    ("--budget=5 solve", "%@exists", "aspq: word 1 refused\n", 2),
];

#[test]
fn reads_options(rt: HostRuntime) -> Result<(), Fail> {
    run_rows(rt.alloc(), &OPTIONS)
}

#[test]
fn answers_worked_texts(rt: HostRuntime) -> Result<(), Fail> {
    run_rows(rt.alloc(), &WORKED)
}
