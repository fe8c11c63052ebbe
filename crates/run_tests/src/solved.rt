//! Verdicts, as they were found by hand.
use crate::runs::{Row, run_rows};
use std::test::Fail;

/// Programs of one existential level for the most part.
const SOLVED: [Row; 39] = [
    (
        "solve",
        "%@exists\na :- not b.\nb :- not a.\n",
        "COHERENT\n",
        10,
    ),
    ("solve", "%@exists\na :- not a.\n", "INCOHERENT\n", 20),
    (
        "solve",
        "%@exists\n{a}.\n%@constraint\n:- not a.\n",
        "COHERENT\n",
        10,
    ),
    (
        "solve",
        "%@forall\na :- not a.\n%@constraint\n:- not b.\n",
        "COHERENT\n",
        10,
    ),
    (
        "solve",
        "%@exists\np(1).\n%@exists\np(2).\n%@constraint\n:- not p(2).\n",
        "COHERENT\n",
        10,
    ),
    (
        "solve",
        "%@exists\np :- not q.\n:- p.\n",
        "INCOHERENT\n",
        20,
    ),
    ("solve", "%@exists\n{a}.\n", "COHERENT\n", 10),
    ("solve", "%@exists", "COHERENT\n", 10),
    ("solve", "%@exists:-.", "INCOHERENT\n", 20),
    ("solve", "%@exists a:-b. b:-a. :-not a.", "INCOHERENT\n", 20),
    (
        "solve",
        "%@exists a. b:-a. b:-a. :-not b.",
        "COHERENT\n",
        10,
    ),
    (
        "solve",
        "%@exists a:-not b. b:-not c. c:-not a.",
        "INCOHERENT\n",
        20,
    ),
    ("solve", "%@exists notx. :-not notx.", "COHERENT\n", 10),
    (
        "solve",
        "%@exists a.b.c.d.e.f.g.h.i.j.k.l.m.n.o.p.",
        "COHERENT\n",
        10,
    ),
    (
        "solve",
        "%@exists a.b.c.d.e.f.g.h.i.j.k.l.m.n.o.p.q.r.s.t.",
        "COHERENT\n",
        10,
    ),
    (
        "solve",
        "%@exists a.b.c.d.e.f.g.h.i.j.k.l.m.n.o.p.q.r.s.t.u.",
        "COHERENT\n",
        10,
    ),
    ("solve", "%@exists p(1..20).", "COHERENT\n", 10),
    ("solve", "%@exists p(1..21).", "COHERENT\n", 10),
    // The last base has the atoms of the constraint part too.
    (
        "solve",
        "%@exists p(1..19). %@constraint :- p(20).",
        "COHERENT\n",
        10,
    ),
    (
        "solve",
        "%@exists p(1..20). %@constraint :- p(20).",
        "INCOHERENT\n",
        20,
    ),
    (
        "solve",
        "%@exists a:-not b. b:-not a. c:-not d. d:-not c. e:-not f. f:-not e. g:-not h. h:-not g. i:-not j. j:-not i. k:-not l. l:-not k. m:-not n. n:-not m. o:-not p. p:-not o.",
        "COHERENT\n",
        10,
    ),
    (
        "solve",
        "%@exists a:-not b. b:-not a. c:-not d. d:-not c. e:-not f. f:-not e. g:-not h. h:-not g. i:-not j. j:-not i. k:-not l. l:-not k. m:-not n. n:-not m. o:-not p. p:-not o. :-a. :-b.",
        "INCOHERENT\n",
        20,
    ),
    (
        "solve",
        "%@exists a:-not b. b:-not a. c:-not d. d:-not c. e:-not f. f:-not e. g:-not h. h:-not g. i:-not j. j:-not i. k:-not l. l:-not k. m:-not n. n:-not m. o:-not p. p:-not o. q:-not r. r:-not q. s:-not t. t:-not s.",
        "COHERENT\n",
        10,
    ),
    (
        "solve",
        "%@exists%@exists%@exists%@exists%@exists%@exists%@exists%@exists\
        %@forall%@forall%@forall%@forall%@forall%@forall%@forall%@forall",
        "COHERENT\n",
        10,
    ),
    ("solve", "%@exists é.", "aspq: bad byte at 9\n", 3),
    ("solve", "%@exists a. % é\n", "COHERENT\n", 10),
    (
        "solve",
        "% loop\n%@exists\na :- not b. %* %@forall *%\nb :- not a. % end",
        "COHERENT\n",
        10,
    ),
    (
        "solve",
        "%@exists\na :- not a.\n%@constraint\n",
        "INCOHERENT\n",
        20,
    ),
    ("solve", "%@exists p(). :- not p.", "COHERENT\n", 10),
    ("solve", "%@forall\na.\n", "COHERENT\n", 10),
    ("solve", "%@exists\na.\n%@exists\nb.\n", "COHERENT\n", 10),
    ("solve", "%@exists\na | b.\n", "COHERENT\n", 10),
    (
        "solve",
        "%@exists\na.\n%@constraint\n:- b.\n",
        "COHERENT\n",
        10,
    ),
    ("solve", "%@exists\n:- 2 < 1.\n", "COHERENT\n", 10),
    ("solve", "%@exists\np(1).\n", "COHERENT\n", 10),
    ("solve", "%@exists\n:- not p(1).\n", "INCOHERENT\n", 20),
    (
        "solve",
        "%@exists\np(X).\n",
        "aspq: unsafe variable X in rule 1\n",
        3,
    ),
    ("solve", "%@exists a", "aspq: unfinished\n", 3),
    ("solve", "%@exists a.\0", "aspq: bad byte at 11\n", 3),
];

/// Texts of some hundred or thousand atoms.
const MANY: [Row; 4] = [
    ("solve", "%@exists p(1..64,1..4).", "COHERENT\n", 10),
    (
        "solve",
        "%@exists p(1..100). {q(X) : p(X)}. :- q(X). :- p(X), not q(X).",
        "INCOHERENT\n",
        20,
    ),
    (
        "solve",
        "%@exists p(1..50). 1 {q(X) : p(X)} 1. :- q(X), X < 50.",
        "COHERENT\n",
        10,
    ),
    (
        "solve",
        "%@forall p(1..6). {q(X) : p(X)}.\n%@exists {r(X)} :- p(X). :- r(X), q(X). :- p(X), not r(X), not q(X).\n",
        "COHERENT\n",
        10,
    ),
];

/// Texts of 16 levels, in which each existential level but the first repeats the choice before it.
const SIXTEEN: [Row; 2] = [
    (
        "solve",
        "%@exists {a}. %@forall {b}. %@exists {c}. :- b, not c. :- c, not b. %@forall {d}. %@exists {e}. :- d, not e. :- e, not d. %@forall {f}. %@exists {g}. :- f, not g. :- g, not f. %@forall {h}. %@exists {i}. :- h, not i. :- i, not h. %@forall {j}. %@exists {k}. :- j, not k. :- k, not j. %@forall {l}. %@exists {m}. :- l, not m. :- m, not l. %@forall {n}. %@exists {o}. :- n, not o. :- o, not n. %@forall {p}. %@constraint :- not a. :- b, not c. :- n, not o.",
        "COHERENT\n",
        10,
    ),
    (
        "solve",
        "%@exists {a}. %@forall {b}. %@exists {c}. :- b, not c. :- c, not b. %@forall {d}. %@exists {e}. :- d, not e. :- e, not d. %@forall {f}. %@exists {g}. :- f, not g. :- g, not f. %@forall {h}. %@exists {i}. :- h, not i. :- i, not h. %@forall {j}. %@exists {k}. :- j, not k. :- k, not j. %@forall {l}. %@exists {m}. :- l, not m. :- m, not l. %@forall {n}. %@exists {o}. :- n, not o. :- o, not n. %@forall {p}. %@constraint :- not a. :- b, not c. :- p, a.",
        "INCOHERENT\n",
        20,
    ),
];

/// Budgets and cells that don't suffice, and the least that do.
const SPENT: [Row; 18] = [
    (
        "solve --budget=1",
        "%@exists {a;b}. :- not a, not b. :- a, b.",
        "UNKNOWN search 1 1\n",
        30,
    ),
    (
        "solve --budget=9",
        "%@exists {a;b}. :- not a, not b. :- a, b.",
        "COHERENT\n",
        10,
    ),
    (
        "solve --budget 9",
        "%@exists {a;b}. :- not a. :- not b. :- a, b.",
        "INCOHERENT\n",
        20,
    ),
    (
        "solve --budget=1",
        "%@exists {a;b}.",
        "UNKNOWN search 1 1\n",
        30,
    ),
    ("solve --budget=2", "%@exists {a;b}.", "COHERENT\n", 10),
    ("solve --budget=9", "%@exists {a;b}.", "COHERENT\n", 10),
    // The check that a candidate is minimal has the budget of a search.
    (
        "solve --budget=3",
        "%@exists a | b | c. a :- b. b :- c. c :- a. :- not a. :- not b. :- not c.",
        "UNKNOWN minimal 1 3\n",
        30,
    ),
    (
        "solve --budget=5",
        "%@exists a | b | c. a :- b. b :- c. c :- a. :- not a. :- not b. :- not c.",
        "UNKNOWN minimal 1 5\n",
        30,
    ),
    (
        "solve --budget=6",
        "%@exists a | b | c. a :- b. b :- c. c :- a. :- not a. :- not b. :- not c.",
        "COHERENT\n",
        10,
    ),
    (
        "solve --budget=27",
        "%@exists a | b | c. a :- b. b :- c. c :- a. :- not a. :- not b. :- not c.",
        "COHERENT\n",
        10,
    ),
    (
        "solve --cells=1",
        "%@exists {a;b}. %@forall {c}. %@constraint :- c, not a.",
        "UNKNOWN store 3 1\n",
        30,
    ),
    (
        "solve --cells=1",
        "%@exists%@forall",
        "UNKNOWN store 2 1\n",
        30,
    ),
    ("solve --cells=1", "%@exists", "UNKNOWN store 1 1\n", 30),
    ("solve --cells=2", "%@exists", "COHERENT\n", 10),
    (
        "solve --cells 1 --budget 1",
        "%@exists",
        "UNKNOWN store 1 1\n",
        30,
    ),
    ("solve --budget 1 --cells 2", "%@exists", "COHERENT\n", 10),
    // The entries of the two levels behind the first take a cell each.
    (
        "solve --cells=2",
        "%@exists%@forall",
        "UNKNOWN store 1 2\n",
        30,
    ),
    ("solve --cells=3", "%@exists%@forall", "COHERENT\n", 10),
];

#[test]
fn solves_many_atoms(rt: HostRuntime) -> Result<(), Fail> {
    run_rows(rt.alloc(), &MANY)
}

#[test]
fn solves_sixteen_levels(rt: HostRuntime) -> Result<(), Fail> {
    run_rows(rt.alloc(), &SIXTEEN)
}

#[test]
fn stays_open_where_a_budget_is_spent(rt: HostRuntime) -> Result<(), Fail> {
    run_rows(rt.alloc(), &SPENT)
}

#[test]
fn solves_one_level(rt: HostRuntime) -> Result<(), Fail> {
    run_rows(rt.alloc(), &SOLVED)
}
