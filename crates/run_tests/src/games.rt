//! Programs of at most 20 atoms, and whether they are coherent, as it was found by hand.
use crate::runs::solve_rows;
use std::test::Fail;

/// Quantified levels, a constraint part, and levels without answer sets.
const LEVELS: [(&str, bool); 30] = [
    ("%@exists {a}.", true),
    ("%@exists {a}. %@constraint :- not a.", true),
    ("%@forall {a}. %@constraint :- not a.", false),
    ("%@forall a :- not a. %@constraint :- not b.", true),
    ("%@exists a :- not a. %@constraint :- not b.", false),
    (
        "%@exists p(1). %@exists p(2). %@constraint :- not p(2).",
        true,
    ),
    (
        "%@exists p(1). %@exists p(2). %@constraint :- not p(3).",
        false,
    ),
    ("%@exists a | b. %@constraint :- b.", true),
    ("%@forall a | b. %@constraint :- b.", false),
    ("%@forall a | b. %@constraint :- a, b.", true),
    ("%@exists {a}. %@forall a. %@constraint :- a.", true),
    ("%@exists {a}. %@constraint :- not a, not b.", true),
    ("%@exists {a}. :- a. %@constraint :- not a, not b.", false),
    (
        "%@exists {a}. %@forall {b}. %@constraint :- a, b. :- not a, not b.",
        false,
    ),
    (
        "%@forall {b}. %@exists {a}. %@constraint :- a, b. :- not a, not b.",
        true,
    ),
    (
        "%@exists {a}. %@forall b | c. %@constraint :- b, not a.",
        true,
    ),
    (
        "%@exists {a}. :- a. %@forall b | c. %@constraint :- b, not a.",
        false,
    ),
    (
        "%@exists {a}. :- a. %@forall b :- not a, not b. %@constraint :- not a.",
        true,
    ),
    ("%@exists {a}. :- a. %@exists b :- not a, not b.", false),
    ("%@forall {a}. %@exists b :- a. :- not b.", false),
    (
        "%@forall {a}. %@exists b :- a. c :- not b. %@constraint :- b, c.",
        true,
    ),
    (
        "%@exists {a}. %@exists {b} :- a. %@forall {c}. %@constraint :- c, not b.",
        true,
    ),
    (
        "%@exists {a}. %@exists {b} :- a. :- a. %@forall {c}. %@constraint :- c, not b.",
        false,
    ),
    (
        "%@exists {a}. %@forall {b}. %@exists {c}. %@constraint :- b, not c. :- c, not b.",
        true,
    ),
    (
        "%@exists {a}. %@forall {b}. %@forall {c}. %@constraint :- b, not c.",
        false,
    ),
    // An atom of an outer level in a choice and as a head of a later one.
    (
        "%@exists {a}. %@exists {a}. b :- a. %@constraint :- not b.",
        true,
    ),
    (
        "%@exists {a}. :- a. %@exists {a}. %@constraint :- not a.",
        false,
    ),
    (
        "%@exists {a}. :- a. %@forall a | b. %@constraint :- not b.",
        true,
    ),
    // The example `vault` with two locks, and with one key to each lock.
    (
        "%@exists n(1..3). {key(C,L) : n(C), n(L)}. :- key(C,1), key(C,2).
        %@forall away(1) | away(2) | away(3). open(L) :- key(C,L), not away(C).
        %@constraint :- n(L), L < 3, not open(L).",
        false,
    ),
    (
        "%@exists n(1..3). {key(C,L) : n(C), n(L)}. :- key(C,1), key(C,2), key(C,3). :- key(C,L), key(D,L), C < D.
        %@forall away(1) | away(2) | away(3). open(L) :- key(C,L), not away(C).
        %@constraint :- n(L), not open(L).",
        false,
    ),
];

/// Rules without arguments: disjunctions, choices, loops, comparisons and the order of constants.
const RULES: [(&str, bool); 20] = [
    ("%@exists a | b. a :- b. b :- a. :- not a.", true),
    ("%@exists a | b. :- a. :- b.", false),
    ("%@exists a | b. :- not a. :- not b.", false),
    (
        "%@exists a | b | c. a :- b. b :- c. c :- a. :- not a. :- not b. :- not c.",
        true,
    ),
    ("%@exists a :- b. b :- a. a :- c. {c}. :- not b.", true),
    (
        "%@exists a :- b. b :- a. a :- c. {c}. :- c. :- not b.",
        false,
    ),
    ("%@exists {a;b}. :- a. :- b.", true),
    ("%@exists {a;b}. :- not a. :- not b.", true),
    ("%@exists {a : b}. :- not a.", false),
    ("%@exists b. {a : b}. :- not a.", true),
    ("%@exists {a} :- a. :- not a.", false),
    ("%@exists {}. :- a.", true),
    ("%@exists a :- not b. b :- not c. c :- not a.", false),
    ("%@exists a :- 1 < 2. :- not a.", true),
    ("%@exists a :- 2 < 1. :- not a.", false),
    ("%@exists :- 1 = 1.", false),
    ("%@exists :- 1 != 1.", true),
    (
        "%@exists a :- -2 < 9, 9 < 10, 10 < b, ab < b, b < ba. :- not a.",
        true,
    ),
    ("%@exists a :- b < 10. :- not a.", false),
    ("%@exists a :- 10 < 9. :- not a.", false),
];

/// Rules with arguments: intervals, variables, universes that grow, and predicates of one name.
const ARGUMENTS: [(&str, bool); 24] = [
    ("%@exists p(1..3). :- not p(2).", true),
    ("%@exists p(3..1). :- p(X).", true),
    ("%@exists p(1..2,1..2). :- not p(2,1).", true),
    (
        "%@exists n(1..4). {p(X)} :- n(X), X > 2. :- not p(3).",
        true,
    ),
    (
        "%@exists n(1..4). {p(X)} :- n(X), X > 2. :- not p(2).",
        false,
    ),
    ("%@exists q(1). q(2). r :- q(_). :- not r.", true),
    ("%@exists q(1,2). r :- q(_,_). :- not r.", true),
    ("%@exists q(1,2). r :- q(X,X). :- not r.", false),
    ("%@exists p(1). p :- not p(1). :- p.", true),
    ("%@exists p. :- not p(1).", false),
    ("%@exists p. :- p(1).", true),
    ("%@exists {a}. %@constraint :- not p(1).", false),
    (
        "%@exists p(1). {q(X)} :- p(X). %@forall r(2). %@constraint :- q(2).",
        true,
    ),
    (
        "%@exists {q(1)}. p(X) :- q(X). %@exists q(2). %@constraint :- not p(2).",
        false,
    ),
    (
        "%@exists {q(1)}. %@exists q(2). p(X) :- q(X). %@constraint :- not p(2).",
        true,
    ),
    ("%@exists {p(X) : q(X)}.", true),
    ("%@exists q(1..3). {p(X) : q(X), X != 2}. :- p(2).", true),
    (
        "%@exists q(1..3). {p(X) : q(X), X != 2}. :- not p(2).",
        false,
    ),
    (
        "%@exists q(1..3). p(X) :- q(X), q(Y), Y > X. %@constraint :- p(3).",
        true,
    ),
    (
        "%@exists q(1..3). p(X) :- q(X), q(Y), Y > X. %@constraint :- p(2).",
        false,
    ),
    (
        "%@exists s(b). s(10). a(X) :- s(X), s(Y), X < Y. :- not a(10).",
        true,
    ),
    (
        "%@exists s(b). s(10). a(X) :- s(X), s(Y), X < Y. :- not a(b).",
        false,
    ),
    // The least of -2, 10 and b.
    (
        "%@exists s(b). s(10). s(-2). a(X) :- s(X), not c(X). c(X) :- s(X), s(Y), Y < X. :- not a(-2).",
        true,
    ),
    (
        "%@exists s(b). s(10). s(-2). a(X) :- s(X), not c(X). c(X) :- s(X), s(Y), Y < X. :- not a(10).",
        false,
    ),
];

#[test]
fn solves_levels(rt: HostRuntime) -> Result<(), Fail> {
    solve_rows(rt.alloc(), &LEVELS)
}

#[test]
fn solves_rules(rt: HostRuntime) -> Result<(), Fail> {
    solve_rows(rt.alloc(), &RULES)
}

#[test]
fn solves_rules_with_arguments(rt: HostRuntime) -> Result<(), Fail> {
    solve_rows(rt.alloc(), &ARGUMENTS)
}
