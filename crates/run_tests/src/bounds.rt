//! Choices with bounds, and whether their programs are coherent, as it was found by hand.
use crate::runs::solve_rows;
use std::test::Fail;

/// Bounds of one level.
const ONE_LEVEL: [(&str, bool); 30] = [
    ("%@exists 1 {a;b} 1.", true),
    ("%@exists 2 {a;b} 1.", false),
    ("%@forall 1 {a;b} 1. %@constraint :- a, b.", true),
    ("%@forall 1 {a;b} 1. %@constraint :- not a, not b.", true),
    ("%@forall 1 {a;b} 2. %@constraint :- a, b.", false),
    ("%@exists n(1..3). 2 {p(X) : n(X)} 2.", true),
    (
        "%@exists n(1..3). 2 {p(X) : n(X)} 2. :- p(1), p(2). :- p(1), p(3).",
        true,
    ),
    (
        "%@exists n(1..3). 2 {p(X) : n(X)} 2. :- p(1), p(2). :- p(3).",
        false,
    ),
    // A lower bound that is just met, and an upper one that is passed by one.
    ("%@exists 2 {a;b}.", true),
    ("%@exists 3 {a;b}.", false),
    ("%@exists a. b. {a;b} 2.", true),
    ("%@exists a. b. {a;b} 1.", false),
    ("%@exists -1 {a}.", true),
    ("%@exists {a} -1.", false),
    ("%@exists 0 {} 0.", true),
    ("%@exists 1 {}.", false),
    // An atom counts once.
    ("%@exists 2 {a;a}.", false),
    ("%@exists {a;a} 1. :- not a.", true),
    ("%@exists q(1..2). 2 {p : q(X)}.", false),
    // A bound whose body is false.
    ("%@exists 3 {a;b} :- c.", true),
    ("%@exists c. 3 {a;b} :- c.", false),
    ("%@exists {c}. 3 {a;b} :- c. :- not c.", false),
    ("%@exists {c}. 3 {a;b} :- not c. :- not c.", true),
    // A bound for each instance of the body.
    (
        "%@exists q(1..2). 1 {p(X,1);p(X,2)} 1 :- q(X). :- not p(1,1). :- not p(2,2).",
        true,
    ),
    (
        "%@exists q(1..2). 1 {p(X,1);p(X,2)} 1 :- q(X). :- p(1,Y), q(Y).",
        false,
    ),
    // A condition that is false, and a term that a comparison drops.
    ("%@exists {d}. 1 {a : d}.", true),
    ("%@exists {d}. 1 {a : d}. :- d.", false),
    ("%@exists {d}. {a : not d} 0. a. :- not d.", true),
    ("%@exists 1 {a : 1 = 2}.", false),
    ("%@exists a. {a : 1 = 2} 0.", true),
];

/// Bounds over the atoms of several levels.
const LEVELS: [(&str, bool); 8] = [
    (
        "%@exists {a}. %@exists 1 {b} :- a. %@forall {c}. %@constraint :- c, b.",
        true,
    ),
    (
        "%@exists {a}. :- not a. %@exists 1 {b} :- a. %@forall {c}. %@constraint :- c, b.",
        false,
    ),
    ("%@exists {a}. %@exists 2 {a;b}.", true),
    ("%@exists {a}. :- a. %@exists 2 {a;b}.", false),
    (
        "%@exists {a}. :- a. %@forall 2 {a;b}. %@constraint :- not c.",
        true,
    ),
    ("%@forall {a}. %@exists 1 {a;b} 1.", true),
    ("%@forall {a}. %@exists 1 {a;b} 1. :- a, not b.", false),
    (
        "%@forall 1 {a;b} 1. %@exists 1 {c;d} 1. :- a, c. :- b, d. %@constraint :- c, d.",
        true,
    ),
];

#[test]
fn solves_bounds(rt: HostRuntime) -> Result<(), Fail> {
    solve_rows(rt.alloc(), &ONE_LEVEL)
}

#[test]
fn solves_bounds_over_levels(rt: HostRuntime) -> Result<(), Fail> {
    solve_rows(rt.alloc(), &LEVELS)
}
