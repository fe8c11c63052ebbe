//! Sets of the first level's atoms, read from their texts, against numbers that were found by hand.
ghost use Rattle.std.specs.Prelude.{ℕ, List, IfSome};
ghost use Rattle.asp_defs.specs.Grammar.{IsText};
ghost use Rattle.asp_sets.specs.Readable.{AreReadable};

use asp_atoms::bases;
use asp_bits::Bits;
use asp_check::{Checked, check};
use asp_defs::{Bases, Game, NoMemory};
use asp_ground::ground;
use asp_read::read;
use asp_sets::read_set;
use bases_tests::rows::expect;
use bases_tests::texts::put_numbers;
use std::alloc::Global;
use std::test::Fail;

/// A program's text, another text, and the numbers of the atoms in the set whose text this is, where it is one. The numbers
/// are those of the atoms' order: by name, by arity, and by the arguments from the left.
const SETS: [(&str, &str, &str); 49] = [
    // The first base is -b, a, aB_9, q(1), q(2), q(3); r comes with the second level.
    (ATOMS, "{}", "{ }"),
    (ATOMS, "{a}", "{ 1 }"),
    (ATOMS, "{-b}", "{ 0 }"),
    (ATOMS, "{aB_9}", "{ 2 }"),
    (ATOMS, "{q(1)}", "{ 3 }"),
    (ATOMS, "{q(3)}", "{ 5 }"),
    (ATOMS, "{-b, a}", "{ 0 1 }"),
    (ATOMS, "{a, aB_9}", "{ 1 2 }"),
    (ATOMS, "{-b, aB_9, q(2)}", "{ 0 2 4 }"),
    (ATOMS, "{-b, a, aB_9, q(1), q(2), q(3)}", "{ 0 1 2 3 4 5 }"),
    // Another order, and an atom twice.
    (ATOMS, "{a, -b}", "none"),
    (ATOMS, "{q(2), q(1)}", "none"),
    (ATOMS, "{a, a}", "none"),
    // Atoms that the first base lacks.
    (ATOMS, "{r}", "none"),
    (ATOMS, "{a, r}", "none"),
    (ATOMS, "{b}", "none"),
    (ATOMS, "{-a}", "none"),
    (ATOMS, "{q}", "none"),
    (ATOMS, "{q(4)}", "none"),
    (ATOMS, "{q(1), q(4)}", "none"),
    (ATOMS, "{q(1,1)}", "none"),
    (ATOMS, "{a(1)}", "none"),
    // Other spellings.
    (ATOMS, "{ }", "none"),
    (ATOMS, "{ a}", "none"),
    (ATOMS, "{a }", "none"),
    (ATOMS, "{-b,a}", "none"),
    (ATOMS, "{-b,  a}", "none"),
    (ATOMS, "{-b , a}", "none"),
    (ATOMS, "{, a}", "none"),
    (ATOMS, "{a, }", "none"),
    (ATOMS, "{-b, , a}", "none"),
    (ATOMS, "{- b}", "none"),
    (ATOMS, "{q(01)}", "none"),
    (ATOMS, "{q( 1)}", "none"),
    (ATOMS, "{q(1}", "none"),
    (ATOMS, "{q1)}", "none"),
    // Braces that are missing or too many.
    (ATOMS, "", "none"),
    (ATOMS, "{", "none"),
    (ATOMS, "}", "none"),
    (ATOMS, "a", "none"),
    (ATOMS, "{a", "none"),
    (ATOMS, "a}", "none"),
    (ATOMS, "{{a}}", "none"),
    (ATOMS, "{a}\n", "none"),
    // Two arguments each, an integer or a symbol: p(-2,-2), p(-2,b), p(b,-2), p(b,b).
    ("%@exists p(b,-2).", "{p(-2,-2), p(b,-2)}", "{ 0 2 }"),
    ("%@exists p(b,-2).", "{p(-2,b), p(b,b)}", "{ 1 3 }"),
    // An atom of the second level stands on either side of the only one of the first.
    ("%@exists {m}. %@forall {a; z}.", "{m}", "{ 1 }"),
    ("%@exists {m}. %@forall {a; z}.", "{a, m}", "none"),
    // No atom at all.
    ("%@exists", "{}", "{ }"),
];

/// A program with atoms of each form.
const ATOMS: &str = "%@exists {a; -b; aB_9}. q(1..3). %@forall {r}.";

/// The program of a text that passes the checks.
fn checked_text(alloc: Global, text: &str) -> Option<Checked>
    ensures { IfSome result (λ checked. (bytes : List ℕ) × IsText bytes checked) }
{
    let bytes = text.as_bytes();
    if bytes.len() > 1_048_576 {
        return None;
    }
    let Ok(program) = read(alloc, bytes) else {
        return None;
    };
    check(alloc, program).ok()
}

/// The game of a text, the sets of whose first level can be read.
fn readable_game(alloc: Global, text: &str) -> Option<Game>
    ensures { IfSome result (λ game. AreReadable game.bases) }
{
    let checked = checked_text(alloc, text)?;
    let Ok(bases) = bases(alloc, &checked) else {
        return None;
    };
    ground(alloc, &checked, bases).ok()
}

/// The true places of a set, in braces, or that there is no set.
fn told(alloc: Global, set: Option<&Bits>) -> Result<String, NoMemory> {
    let Some(set) = set else {
        return String::from_str(alloc, "none");
    };
    let mut places = Vec::new(alloc);
    for place in 0..set.len() {
        if set.get(place) {
            places.push(place)?;
        }
    }
    let mut text = String::new(alloc);
    put_numbers(&mut text, places.as_slice())?;
    Ok(text)
}

/// Whether a text is read as these numbers over these bases.
fn reads_over(alloc: Global, bases: &Bases, word: &str, expected: &str) -> Result<bool, NoMemory>
    requires { AreReadable bases.now }
{
    let set = read_set(alloc, bases, word.as_bytes())?;
    let text = told(alloc, set.as_ref())?;
    Ok(text.as_str() == expected)
}

/// Whether a text is read as these numbers over the first base of a program.
fn reads_as(alloc: Global, program: &str, word: &str, expected: &str) -> bool {
    match readable_game(alloc, program) {
        Some(game) => reads_over(alloc, &game.bases, word, expected).unwrap_or(false),
        None => false,
    }
}

/// Reads the set of each row.
fn set_rows(alloc: Global, rows: &[(&str, &str, &str)]) -> Result<(), Fail> {
    for (program, word, expected) in rows {
        expect(reads_as(alloc, program, word, expected), word)?;
    }
    Ok(())
}

#[test]
fn reads_sets(rt: HostRuntime) -> Result<(), Fail> {
    set_rows(rt.alloc(), &SETS)
}
