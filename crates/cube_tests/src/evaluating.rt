//! The value behind the last level, with its cube.
use crate::moves::outer_move;
use asp_defs::{Game, Lit, NoMemory};
use asp_eval::{Judged, evaluate};
use bases_tests::rows::expect;
use bases_tests::texts::{game, put_atom};
use std::alloc::Global;
use std::test::Fail;

/// A text, the true atoms by their bits, the first atom of the last level's base the lowest, and the verdict with the cube's
/// literals.
type Row = (&'static str, u32, &'static str);

/// What decides.
const VERDICTS: [Row; 9] = [
    (
        "%@exists {a}. {b}. %@forall {c}. %@constraint :- c, not a.",
        0,
        "true, not c",
    ),
    (
        "%@exists {a}. {b}. %@forall {c}. %@constraint :- c, not a.",
        0b100,
        "false, not a, c",
    ),
    (
        "%@exists {a}. %@constraint :- not a, not b.",
        0,
        "false, not a",
    ),
    (
        "%@exists {a}. %@constraint :- not a, not b.",
        0b1,
        "true, a",
    ),
    // No outer move makes b true.
    ("%@exists {a}. %@constraint :- a, b.", 0b1, "true"),
    ("%@exists {a}. %@constraint", 0b1, "true"),
    ("%@exists {a}.", 0, "true"),
    // The third has no literal on an outer atom, so every move breaks it.
    (
        "%@exists {a}. {b}. %@constraint :- a, b. :- b. :- not c.",
        0b11,
        "false",
    ),
    // All are broken, and the second has the fewest literals on outer atoms.
    (
        "%@exists {a}. {b}. %@constraint :- a, b. :- b. :- a, b, not c.",
        0b11,
        "false, b",
    ),
];

/// Which literals are taken.
const TAKEN: [Row; 8] = [
    // Where both literals serve as many, that of the least number is.
    ("%@exists {a}. {b}. %@constraint :- a, b.", 0, "true, not a"),
    // One literal serves both.
    (
        "%@exists {a}. {b}. {c}. %@constraint :- a, c. :- b, c.",
        0,
        "true, not c",
    ),
    // Of a universal last level the atom of the earliest base is taken.
    (
        "%@exists {a}. %@forall {b}. %@constraint :- a, b.",
        0,
        "true, not a",
    ),
    (
        "%@exists {a}. {b}. %@forall {c}. %@constraint :- c, not a.",
        0b1,
        "true, a",
    ),
    // Of an existential one its own atom is.
    (
        "%@forall {a}. %@exists {b}. %@constraint :- a, b.",
        0,
        "true, not b",
    ),
    // Where it has none in the constraint, the atom of the earliest base is.
    (
        "%@exists {a}. %@forall {b}. %@exists {c}. %@constraint :- a, b.",
        0,
        "true, not a",
    ),
    // The literal on a goes, which was taken first, since that on b serves too.
    (
        "%@exists {a}. %@forall {b}. {c}. %@constraint :- a, b. :- b, c.",
        0,
        "true, not b",
    ),
    // The same along a chain: of a, b, c and d, which are taken first, b and d serve all.
    (
        "%@exists {a}. %@forall {b}. %@exists {c}. %@forall {d}. {e}. %@constraint :- a, b. :- b, c. :- c, d. :- d, e.",
        0,
        "true, not b, not d",
    ),
];

fn put_literal(out: &mut String, game: &Game, lit: &Lit) -> Result<(), NoMemory> {
    out.push_str(if lit.positive { ", " } else { ", not " })?;
    match game.bases.atoms.as_slice().get(lit.atom as usize) {
        Some(atom) => put_atom(out, atom),
        None => Ok(()),
    }
}

/// The verdict, and behind it the cube's literals.
fn written(alloc: Global, game: &Game, judged: &Judged) -> Result<String, NoMemory> {
    let mut out = String::new(alloc);
    out.push_str(if judged.verdict { "true" } else { "false" })?;
    let lits = judged.cube.lits();
    for lit in lits {
        put_literal(&mut out, game, lit)?;
    }
    Ok(out)
}

/// What `evaluate` answers of an outer move; none where the text or memory is refused.
fn answer(alloc: Global, text: &str, bits: u32) -> Option<String> {
    let game = game(alloc, text)?;
    let set = outer_move(alloc, &game, bits)?;
    let Ok(judged) = evaluate(alloc, &game, &set) else {
        return None;
    };
    written(alloc, &game, &judged).ok()
}

/// Whether `evaluate` answers this of an outer move.
fn answers(alloc: Global, text: &str, bits: u32, expected: &str) -> bool {
    match answer(alloc, text, bits) {
        Some(answer) => answer.as_str() == expected,
        None => false,
    }
}

fn run_rows(alloc: Global, rows: &[Row]) -> Result<(), Fail> {
    for (text, bits, expected) in rows {
        expect(answers(alloc, text, *bits, expected), text)?;
    }
    Ok(())
}

#[test]
fn what_decides_is_told(rt: HostRuntime) -> Result<(), Fail> {
    run_rows(rt.alloc(), &VERDICTS)
}

#[test]
fn few_literals_are_taken(rt: HostRuntime) -> Result<(), Fail> {
    run_rows(rt.alloc(), &TAKEN)
}
