//! Levels whose moves and cores were worked out by hand.

use crate::letters::{letters, region, sets};
use crate::wanted::is_listed;
use asked_moves::trials::{Trial, try_text};
use asp_answers::Answers;
use asp_defs::{Game, Lit};
use bases_tests::rows::expect;
use std::alloc::Global;
use std::test::Fail;

/// A text, a level, an outer move, the region's true and false atoms, the moves, and the atoms that the core has as true and as
/// false. The empty set is written `-`.
type Row = (
    &'static str,
    u32,
    &'static str,
    &'static str,
    &'static str,
    &'static str,
    &'static str,
    &'static str,
);

const ROWS: [Row; 29] = [
    (
        "%@exists a :- b. b :- a. a :- c. {c}.",
        1,
        "",
        "",
        "",
        "-,abc",
        "",
        "",
    ),
    (
        "%@exists a | b. a :- b. b :- a.",
        1,
        "",
        "",
        "",
        "ab",
        "",
        "",
    ),
    (
        "%@exists {a}. %@forall a. %@constraint :- a.",
        2,
        "",
        "",
        "",
        "",
        "",
        "a",
    ),
    (
        "%@exists {a}. %@forall a. %@constraint :- a.",
        2,
        "a",
        "",
        "",
        "a",
        "a",
        "",
    ),
    ("%@exists a :- not a.", 1, "", "", "", "", "", ""),
    (
        "%@exists {a}. %@exists {b} :- a.",
        2,
        "",
        "",
        "",
        "-",
        "",
        "a",
    ),
    (
        "%@exists {a}. %@exists {b} :- a.",
        2,
        "a",
        "",
        "",
        "a,ab",
        "a",
        "",
    ),
    (
        "%@exists {a}. {b}. %@exists :- a.",
        2,
        "ab",
        "",
        "",
        "",
        "a",
        "",
    ),
    (
        "%@exists {a}. {b}. %@exists c. :- a. :- c, b.",
        2,
        "b",
        "",
        "",
        "",
        "b",
        "",
    ),
    // Regions.
    ("%@exists {a}. {b}.", 1, "", "a", "", "a,ab", "", ""),
    ("%@exists {a}. {b}.", 1, "", "", "b", "-,a", "", ""),
    ("%@exists {a}. {b} :- a.", 1, "", "b", "a", "", "", ""),
    // A level without rules, and one whose atoms are all outer ones.
    ("%@exists %@exists {a}.", 1, "", "", "", "-", "", ""),
    (
        "%@exists {a}. {b}. %@exists :- a, b.",
        2,
        "ab",
        "",
        "",
        "",
        "ab",
        "",
    ),
    (
        "%@exists {a}. {b}. %@exists :- a, b.",
        2,
        "a",
        "",
        "",
        "a",
        "a",
        "b",
    ),
    // Bounds: both ends, one of them, a body, a condition, an atom in several terms, outer atoms, ends that nothing meets.
    (
        "%@exists 1{a;b;c}2.",
        1,
        "",
        "",
        "",
        "a,b,c,ab,ac,bc",
        "",
        "",
    ),
    ("%@exists 2{a;b;c}.", 1, "", "", "", "ab,ac,bc,abc", "", ""),
    ("%@exists {a;b;c}1.", 1, "", "", "", "-,a,b,c", "", ""),
    (
        "%@exists {c}. 1{a;b}1 :- c.",
        1,
        "",
        "",
        "",
        "-,ac,bc",
        "",
        "",
    ),
    (
        "%@exists {b}. {c}. %@exists {a : b; a : c}0.",
        2,
        "bc",
        "",
        "",
        "bc",
        "bc",
        "",
    ),
    (
        "%@exists {a;b}. %@exists {c}. 2{a;b}2.",
        2,
        "a",
        "",
        "",
        "",
        "",
        "b",
    ),
    ("%@exists 2{a;b}1.", 1, "", "", "", "", "", ""),
    // An atom twice in a bound counts once, also by two conditions of which both hold.
    ("%@exists 1{a;a;b}1.", 1, "", "", "", "a,b", "", ""),
    ("%@exists 2{a;a;b}.", 1, "", "", "", "ab", "", ""),
    (
        "%@exists {c}. {d}. {a : c; a : d; b}1. :- not a, c.",
        1,
        "",
        "",
        "",
        "-,ac,acd,ad,b,bd,d",
        "",
        "",
    ),
    // A bound over an outer atom and one of the level's own.
    (
        "%@exists {a}. %@exists 1{a;b}1.",
        2,
        "a",
        "",
        "",
        "a",
        "a",
        "",
    ),
    (
        "%@exists {a}. %@exists 1{a;b}1.",
        2,
        "",
        "",
        "",
        "b",
        "",
        "a",
    ),
    // A region that the rules exclude after this outer move.
    (
        "%@exists {a}. %@exists b :- a.",
        2,
        "a",
        "",
        "b",
        "",
        "a",
        "",
    ),
    // 64 literals.
    (
        SIXTY_FOUR,
        1,
        "",
        "",
        "",
        "abcdefghijklmnopqrstuvwx,abcdefghijklmnopqrstuvwxyz",
        "",
        "",
    ),
];

/// A rule with 64 literals: its head, and each of 25 atoms two or three times.
const SIXTY_FOUR: &str =
    "%@exists a. b. c. d. e. f. g. h. i. j. k. l. m. n. o. p. q. r. s. t. u. v. w. x. {y}. z :- a, b, c, d, e, f, g, h, i, j, k, l, m, n, o, p, q, r, s, t, u, v, w, x, y, a, b, c, d, e, f, g, h, i, j, k, l, m, n, o, p, q, r, s, t, u, v, w, x, y, a, b, c, d, e, f, g, h, i, j, k, l, m.";

/// A question, and the moves and the core that are wanted of it.
#[derive(Drop)]
struct Question {
    outer: u32,
    region: Vec<Lit>,
    moves: Vec<u32>,
    core: (u32, u32),
}

impl Trial for Question {
    fn run(
        &mut self,
        alloc: Global,
        answers: &mut Answers,
        game: &Game,
        level: u32,
    ) -> Option<bool> {
        let region = self.region.as_slice();
        let moves = self.moves.as_slice();
        is_listed(
            alloc, answers, game, level, self.outer, region, moves, self.core,
        )
    }
}

/// Whether a row is right.
fn is_right(alloc: Global, row: &Row) -> Option<bool> {
    let (text, level, outer, held, out, moves, core_held, core_out) = *row;
    let region = region(alloc, held, out).ok()?;
    let moves = sets(alloc, moves).ok()?;
    let mut question = Question {
        outer: letters(outer),
        region,
        moves,
        core: (letters(core_held), letters(core_out)),
    };
    try_text(alloc, text, level, 1000, &mut question)
}

fn run_rows(alloc: Global, rows: &[Row]) -> Result<(), Fail> {
    for row in rows {
        expect(is_right(alloc, row) == Some(true), row.0)?;
    }
    Ok(())
}

#[test]
fn finds_all_moves_and_a_core(rt: HostRuntime) -> Result<(), Fail> {
    run_rows(rt.alloc(), &ROWS)
}
