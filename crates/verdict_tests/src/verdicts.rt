//! The verdicts and the quantified answer sets of small games, as they were found by hand.
ghost use Rattle.std.specs.Prelude.{◌≡◌, ◌≤◌, IsTrue, Some, length};
ghost use Rattle.std.specs.List.{slice_get};
ghost use Rattle.asp_defs.specs.declared.syntax.Quant.TheVariants.{Exists};
ghost use Rattle.asp_defs.specs.Games.{IsValid};
ghost use Rattle.asp_plain.specs.Masks.{most_masked};

use asp_bits::Bits;
use asp_defs::{Game, GroundAtom, NoMemory, Quant};
use asp_plain::{MOST_ATOMS, coherent, listing};
use bases_tests::rows::expect;
use bases_tests::texts::{game, put_atom};
use std::alloc::Global;
use std::test::Fail;

/// A text, whether its program is coherent, and its quantified answer sets in their order, each in braces; none where the
/// first level is universal.
type Row = (&'static str, bool, &'static str);

const ROWS: [Row; 25] = [
    ("%@exists {a}. %@constraint :- not a.", true, "{a}"),
    (
        "%@exists {a}. {b}. %@forall {c}. %@constraint :- c, not a.",
        true,
        "{a}{a b}",
    ),
    ("%@forall a :- not a. %@constraint :- not b.", true, ""),
    ("%@exists a :- not a.", false, ""),
    ("%@exists a | b. a :- b. b :- a.", true, "{a b}"),
    ("%@exists a :- b. b :- a. a :- c. {c}.", true, "{}{a b c}"),
    ("%@exists {a}. %@forall a. %@constraint :- a.", true, "{}"),
    (
        "%@exists a. %@exists b. %@constraint :- not b.",
        true,
        "{a}",
    ),
    ("%@exists {a}. %@constraint :- not a, not b.", true, "{a}"),
    ("%@exists {a}. {b}.", true, "{}{b}{a}{a b}"),
    (
        "%@exists {a}. %@exists {b} :- a. %@forall {c}. %@constraint :- c, not b.",
        true,
        "{a}",
    ),
    (
        "%@exists {b}. %@forall {a}. %@constraint :- a, not b.",
        true,
        "{b}",
    ),
    (
        "%@forall {a}. %@exists b :- not a. %@constraint :- not b.",
        false,
        "",
    ),
    ("%@exists a | b. %@exists a | b | c.", true, "{b}{a}"),
    ("%@exists", true, "{}"),
    (
        "%@exists a | b | c. a :- b. b :- c. c :- a. :- not a. :- not b. :- not c.",
        true,
        "{a b c}",
    ),
    // Facts, a choice behind each of the last ones, and two atoms that no rule gives.
    (
        "%@exists a. b. c. d. {g} :- c. {h} :- d. :- e, f.",
        true,
        "{a b c d}{a b c d h}{a b c d g}{a b c d g h}",
    ),
    ("%@exists a. b. c :- a. c :- b.", true, "{a b c}"),
    // An incoherent one, a universal one, three levels, and lower atoms in a choice and in heads.
    ("%@exists {a}. %@constraint :- a. :- not a.", false, ""),
    ("%@forall {a}. %@constraint :- a.", false, ""),
    (
        "%@exists {a}. %@forall {b}. %@exists {c}. %@constraint :- b, not c. :- c, not b.",
        true,
        "{}{a}",
    ),
    (
        "%@exists {a}. %@exists {a}. b :- a. %@constraint :- not b.",
        true,
        "{a}",
    ),
    // More than twenty rules, many of which become equal once an atom is decided.
    (
        "%@exists {a}. {b}. c :- a. d :- a. e :- a. f :- a. g :- a. h :- a. :- b, c, d. :- b, c, e. :- b, c, f. :- b, c, g. :- b, c, h. :- b, d, e. :- b, d, f. :- b, d, g. :- b, d, h. :- b, e, f. :- b, e, g. :- b, e, h. :- b, f, g. :- b, f, h. :- b, g, h. %@constraint :- not a, not b.",
        true,
        "{b}{a c d e f g h}",
    ),
    // Smaller sets that break one rule after another: only the empty one is a model, or none is.
    (
        "%@exists {a} :- h. {b} :- h. {c} :- h. {d} :- h. {e} :- h. {f} :- h. {g} :- h. h :- a. h :- b. h :- c. h :- d. h :- e. h :- f. h :- g. :- not h.",
        false,
        "",
    ),
    (
        "%@exists a | h. h :- a. a :- h. {b} :- h. {c} :- h. {d} :- h. {e} :- h. {f} :- h. {g} :- h. b :- a, c. c :- a, d. d :- a, e. e :- a, f. f :- a, g. %@constraint :- not g.",
        true,
        "{a b c d e f g h}",
    ),
];

/// Texts with arguments, and further ones.
const LISTED: [Row; 6] = [
    (
        "%@exists n(1..4). {p(X)} :- n(X), X > 2.",
        true,
        "{n(1) n(2) n(3) n(4)}{n(1) n(2) n(3) n(4) p(4)}{n(1) n(2) n(3) n(4) p(3)}{n(1) n(2) n(3) n(4) p(3) p(4)}",
    ),
    // Everything but -2 has something below it.
    (
        "%@exists s(b). s(10). s(-2). a(X) :- s(X), not c(X). c(X) :- s(X), s(Y), Y < X.",
        true,
        "{a(-2) c(10) c(b) s(-2) s(10) s(b)}",
    ),
    ("%@exists q(1). q(2). r :- q(_).", true, "{q(1) q(2) r}"),
    ("%@exists a :- b. b :- a. a :- c. {c}.", true, "{}{a b c}"),
    (
        "%@exists {a}. %@exists {b} :- a. %@forall {c}. %@constraint :- c, not b.",
        true,
        "{a}",
    ),
    ("%@exists {a}. %@constraint :- a. :- not a.", false, ""),
];

/// Choices with bounds.
const BOUNDED: [Row; 23] = [
    // Met with equality, broken by one, and with repeated atoms.
    ("%@exists 1 {a;b} 1.", true, "{b}{a}"),
    ("%@exists 2 {a;b} 1.", false, ""),
    ("%@exists 2 {a;b;c}.", true, "{b c}{a c}{a b}{a b c}"),
    ("%@exists a. {a;b;c} 2.", true, "{a}{a c}{a b}"),
    ("%@exists a. b. {a;b} 2.", true, "{a b}"),
    ("%@exists a. b. {a;b} 1.", false, ""),
    ("%@exists {a} -1.", false, ""),
    ("%@exists 2 {a;a}.", false, ""),
    ("%@exists {a;a;b} 1.", true, "{}{b}{a}"),
    (
        "%@exists n(1..3). 2 {p(X) : n(X)} 2.",
        true,
        "{n(1) n(2) n(3) p(2) p(3)}{n(1) n(2) n(3) p(1) p(3)}{n(1) n(2) n(3) p(1) p(2)}",
    ),
    // One colour for each node, and not the same one twice.
    (
        "%@exists n(1..2). 1 {r(X);g(X)} 1 :- n(X). :- r(1), r(2). :- g(1), g(2).",
        true,
        "{g(2) n(1) n(2) r(1)}{g(1) n(1) n(2) r(2)}",
    ),
    // A body that is false, a condition that is false, and a term that a comparison drops.
    ("%@exists {c}. 2 {a;b} :- c.", true, "{}{a b c}"),
    ("%@exists {c}. 3 {a;b} :- c.", true, "{}"),
    ("%@exists {d}. 1 {a : d}.", true, "{a d}"),
    ("%@exists 1 {a : 1 = 2}.", false, ""),
    ("%@exists a. {a : 1 = 2} 0.", true, "{a}"),
    (
        "%@exists n(1..2). {p(X) : n(X), X > 1} 0.",
        true,
        "{n(1) n(2)}",
    ),
    // A bound derives nothing.
    ("%@exists 1 {a} :- a.", true, "{}"),
    ("%@exists a | b. 2 {a;b}.", true, "{a b}"),
    ("%@exists 1 {a : b}. b :- a.", false, ""),
    // Over atoms of an outer level.
    (
        "%@exists {a}. %@exists 1 {b} :- a. %@forall {c}. %@constraint :- c, b.",
        true,
        "{}",
    ),
    ("%@exists {a}. %@exists 2 {a;b}.", true, "{a}"),
    (
        "%@exists {a}. %@forall {a;b} 1. %@constraint :- not a, not b.",
        true,
        "{a}",
    ),
];

/// Strong negation.
const NEGATED: [Row; 10] = [
    ("%@exists {a}. -a :- not a.", true, "{a}{-a}"),
    ("%@exists a. -a.", false, ""),
    ("%@forall a. -a. %@constraint :- not b.", true, ""),
    ("%@exists {-a}. b :- not -a.", true, "{b}{-a}"),
    ("%@exists -a. %@constraint :- not a.", false, ""),
    ("%@exists p(1..2). -p(2..3).", false, ""),
    ("%@exists p(1). -p(2).", true, "{-p(2) p(1)}"),
    // In a later level, and in an earlier one.
    (
        "%@exists {a}. %@forall -a. %@constraint :- not a.",
        true,
        "{a}",
    ),
    ("%@exists {-a}. %@exists a.", true, "{}"),
    (
        "%@exists {-a}. %@forall {a}. %@constraint :- not a, not -a.",
        true,
        "{-a}",
    ),
];

/// Adds the true atoms in braces.
fn put_set(text: &mut String, atoms: &[GroundAtom], set: &Bits) -> Result<(), NoMemory> {
    text.push('{')?;
    let mut is_first = true;
    for place in 0..set.len() {
        if set.get(place)
            && let Some(atom) = atoms.get(place as usize)
        {
            text.push_str(if is_first { "" } else { " " })?;
            put_atom(text, atom)?;
            is_first = false;
        }
    }
    text.push('}')
}

fn is_existential(game: &Game) -> bool
    ensures { IsTrue result → slice_get game.now.quants 0 ≡ Some Exists }
{
    matches!(game.quants.as_slice().first(), Some(Quant::Exists))
}

/// The sets of the listing in a row; nothing where the first level is universal.
fn listed(alloc: Global, game: &Game) -> Result<String, NoMemory>
    requires valid { IsValid game.now }
    requires few { length game.now.bases.atoms ≤ most_masked }
{
    let mut text = String::new(alloc);
    if is_existential(game) {
        let sets = listing(alloc, game)?;
        let sets = sets.as_slice();
        for set in sets {
            put_set(&mut text, game.bases.atoms.as_slice(), set)?;
        }
    }
    Ok(text)
}

/// Whether a game has this verdict and these sets.
fn is_decided(alloc: Global, game: &Game, verdict: bool, sets: &str) -> Result<bool, NoMemory>
    requires valid { IsValid game.now }
    requires few { length game.now.bases.atoms ≤ most_masked }
{
    let decided = coherent(alloc, game)?;
    let listed = listed(alloc, game)?;
    Ok(decided == verdict && listed.as_str() == sets)
}

/// Whether a text has a game of few atoms with this verdict and these sets.
pub fn is_outcome(alloc: Global, text: &str, verdict: bool, sets: &str) -> bool {
    let Some(game) = game(alloc, text) else {
        return false;
    };
    if game.bases.atoms.len() > MOST_ATOMS {
        return false;
    }
    match is_decided(alloc, &game, verdict, sets) {
        Ok(decided) => decided,
        Err(_) => false,
    }
}

fn run_rows(alloc: Global, rows: &[Row]) -> Result<(), Fail> {
    for (text, verdict, sets) in rows {
        expect(is_outcome(alloc, text, *verdict, sets), text)?;
    }
    Ok(())
}

#[test]
fn decides_and_lists(rt: HostRuntime) -> Result<(), Fail> {
    run_rows(rt.alloc(), &ROWS)
}

#[test]
fn lists_sets_of_atoms_with_arguments(rt: HostRuntime) -> Result<(), Fail> {
    run_rows(rt.alloc(), &LISTED)
}

#[test]
fn lists_sets_within_bounds(rt: HostRuntime) -> Result<(), Fail> {
    run_rows(rt.alloc(), &BOUNDED)
}

#[test]
fn lists_sets_with_strong_negation(rt: HostRuntime) -> Result<(), Fail> {
    run_rows(rt.alloc(), &NEGATED)
}
