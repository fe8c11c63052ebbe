//! Strong negation, and whether its programs are coherent, as it was found by hand.
use crate::runs::solve_rows;
use std::test::Fail;

/// Atoms and their negations.
const ROWS: [(&str, bool); 20] = [
    ("%@exists {a}. -a :- not a.", true),
    ("%@exists a. -a.", false),
    ("%@forall a. -a. %@constraint :- not b.", true),
    ("%@exists -a. :- not -a.", true),
    ("%@exists - a. :- not -a.", true),
    ("%@exists -a. :- not a.", false),
    ("%@exists -a. %@constraint :- not a.", false),
    ("%@exists {a;-a}. :- not a, not -a.", true),
    ("%@exists {a;-a}. %@constraint :- not a. :- not -a.", false),
    ("%@forall {a;-a}. %@constraint :- a, -a.", true),
    // Of the same arguments alone.
    ("%@exists p(1). -p(2).", true),
    ("%@exists p(1..2). -p(2..3).", false),
    ("%@exists p(1). -p(1,1).", true),
    // In different levels.
    ("%@exists {a}. %@forall -a. %@constraint :- not a.", true),
    ("%@exists -a. %@exists a.", false),
    ("%@exists -a. %@forall a. %@constraint :- not b.", true),
    ("%@forall {-a}. %@exists {a}. :- not a, not -a.", true),
    ("%@forall {-a}. %@exists {a}. :- not a.", false),
    // Known to be false, by default.
    (
        "%@exists n(1..2). p(1). -p(X) :- n(X), not p(X). :- not -p(2). :- -p(1).",
        true,
    ),
    ("%@exists 1 {a;-a} 1. %@constraint :- not a, not -a.", true),
];

#[test]
fn solves_strong_negation(rt: HostRuntime) -> Result<(), Fail> {
    solve_rows(rt.alloc(), &ROWS)
}
