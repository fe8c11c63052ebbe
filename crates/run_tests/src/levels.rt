//! Programs of two to five levels, whose verdicts are compared with those of the enumeration of all sets.
ghost use Rattle.std.specs.Prelude.{◌≤◌, length};
ghost use Rattle.asp_defs.specs.Games.{IsValid};
ghost use Rattle.asp_plain.specs.Masks.{most_masked};

use crate::rows::expect;
use crate::runs::check_verdict;
use asp_defs::Game;
use asp_plain::{MOST_ATOMS, coherent};
use bases_tests::texts::game;
use std::alloc::Global;
use std::test::Fail;

/// Programs of two levels, drawn at random as the others: half of them begin with an existential level, and the others with a
/// universal one.
const TWO_LEVELS: [&str; 16] = [
    "%@exists a :- not c. c :- not a. :- not c, a. %@forall {d;e;f}. d :- e. f :- b. :- not d, not a. %@constraint :- not e, not f, e.",
    "%@forall a | b | c | d. b :- not a. %@forall 1 {e;f;g;h;i;j;k} 1 :- b. e :- not h, h.",
    "%@exists {a;b;c;d;e} 1. c :- not a. %@forall f | g | h | i. f :- a. :- not f, not c. %@constraint :- i, g. :- not h, not g, i.",
    "%@forall a | b | c. c :- not a, c. b :- not a. %@exists {d;e;f;g;h;i;j} 2. d :- d. e :- h. %@constraint :- not b, h, not d.",
    "%@exists {a;b;c;d;e}. e :- d, c. %@forall f :- not j. j :- not f. g :- g, b. h :- not h, f. %@constraint :- f, not g, not e. :- c, not f, not d.",
    "%@forall a :- not d. d :- not a. d :- a. %@exists e :- not i. i :- not e. %@constraint :- b, not e. :- i, h, d.",
    "%@exists {a;b;c;d;e} 1. %@forall f :- not l. l :- not f. h :- not b, i. l :- not k. :- not k, not f. %@constraint :- i, not i, not a. :- h, not k, i.",
    "%@forall {a;b;c} 2. c :- b. b :- a, c. %@exists {d;e;f}. e :- not d. %@constraint :- e, d, not a.",
    "%@exists {a;b;c;d;e;f;g}. d :- e. b :- b. %@exists {h;i;j} 1. :- j, not c. %@constraint :- h, j, f. :- not c, h, j.",
    "%@forall a | b | c | d | e. d :- a, b. c :- b. %@exists {f;g;h;i;j;k;l} 1 :- b. :- l, a.",
    "%@exists {a;b;c;d;e;f;g} 1. c :- not b. b :- b. :- e, f. %@forall 1 {h;i;j;k;l} 1. %@constraint :- not k, i. :- l, h.",
    "%@forall {a;b;c} 1. %@exists {d;e;f;g;h} 1. h :- c, not h. %@constraint :- c, not e, not c. :- d, not h, not g.",
    "%@exists {a;b;c} 2. %@forall {d;e;f} 1. %@constraint :- f, not e.",
    "%@forall a | b | c | d | e | f | g. d :- not f. d :- d, not d. %@exists {h;i;j;k} 1. h :- a. %@constraint :- not e, k, e.",
    "%@exists a :- not c. c :- not a. b :- c. %@forall d :- not j. j :- not d. %@constraint :- not f, d, not i.",
    "%@forall a :- not d. d :- not a. c :- not a, b. %@exists e | f | g | h | i. e :- not b. :- e, not a. %@constraint :- h, i, e.",
];

/// Programs of three levels.
const THREE_LEVELS: [&str; 16] = [
    "%@exists {a;b;c;d} 2. c :- not d, b. b :- c. %@forall {e;f}. %@exists {g;h;i;j} 1. g :- e. i :- b, f. :- g, d. %@constraint :- e, not j, g. :- not f, not j.",
    "%@forall {a;b;c;d} 2. b :- d. %@exists {e;f;g;h}. e :- b. h :- not e. :- e, a. %@forall i :- not l. l :- not i. k :- not h. l :- h.",
    "%@exists a :- not d. d :- not a. %@forall e :- not h. h :- not e. e :- not e. :- h, e. %@exists i | j | k | l. k :- d. i :- h. :- i, d. %@constraint :- k, l, b. :- not k, i.",
    "%@forall a :- not c. c :- not a. b :- not c. %@exists {d;e;f}. e :- not d, c. %@forall g | h | i. h :- not a, b. i :- a. :- not g, not b.",
    "%@exists a :- not c. c :- not a. a :- c. a :- c, not b. %@forall {d;e} 1 :- not a. d :- not a. %@exists f | g | h | i. i :- i, b. :- i.",
    "%@forall {a;b;c;d} 1. d :- b, c. %@exists e :- not h. h :- not e. f :- a, g. %@forall i | j. i :- d. :- not i, not b. %@constraint :- e, not j, b.",
    "%@exists a :- not d. d :- not a. %@forall 1 {e;f;g;h} 1 :- b. e :- b. f :- a, g. %@exists i | j | k | l.",
    "%@forall {a;b;c;d}. b :- not b. %@exists e :- not h. h :- not e. :- not h, not f. %@forall {i;j;k}. k :- not h, not c. %@constraint :- d, k, h. :- d, i, not d.",
    "%@exists {a;b}. b :- a. %@forall c :- not f. f :- not c. %@exists g :- not j. j :- not g. j :- b.",
    "%@forall {a;b;c;d} 1. c :- not c, d. a :- d, b. %@exists {e;f;g;h}. %@forall i :- not j. j :- not i. j :- e. :- j, not j. %@constraint :- i, j. :- not g, not j, f.",
    "%@exists a :- not b. b :- not a. b :- not b. :- a. %@forall {c;d;e;f}. c :- not d, e. :- not e, e. %@exists {g;h;i} 1. %@constraint :- not b, not i, not f. :- not h, i, a.",
    "%@forall a | b | c | d. c :- not b, not d. %@exists {e;f} 1. f :- d. %@forall {g;h;i} 1. i :- not c, i. g :- h, c. :- not h, e.",
    "%@exists 1 {a;b} 1. b :- a. %@forall c :- not d. d :- not c. d :- d. %@exists {e;f}. :- e, b. %@constraint :- b, e.",
    "%@forall {a;b;c;d} 2. c :- a. %@exists e :- not h. h :- not e. %@forall {i;j;k;l} 2.",
    "%@exists {a;b;c}. b :- c. :- not a, b. %@forall {d;e;f} 1. e :- d. :- not e, b. %@exists g :- not h. h :- not g. h :- not e. :- g, not e. %@constraint :- h, g, b.",
    "%@forall a | b | c. c :- not b. a :- b. %@exists d :- not f. f :- not d. e :- not e. :- f, b. %@forall {g;h;i;j}. g :- not c. g :- not g. :- h, not c. %@constraint :- f, not i, c.",
];

/// Programs of four levels.
const FOUR_LEVELS: [&str; 16] = [
    "%@exists {a;b} 2. a :- b. %@forall {c;d}. c :- b. :- not d, b. %@exists e | f. e :- b. %@forall g :- not h. h :- not g. h :- not e. g :- not f. :- g. %@constraint :- d, g, f.",
    "%@forall a | b. a :- b. a :- not a, a. %@exists {c;d} 1. c :- b. %@forall {e;f}. e :- c, not d. %@exists 1 {g;h} 1 :- b. :- not h, not b. %@constraint :- e, h, not b. :- c, not g, a.",
    "%@exists {a;b;c} 1. c :- not c. %@forall {d;e;f} 1. d :- f. e :- f. %@exists {g;h} 1. g :- h. g :- not d, c. %@forall i :- not j. j :- not i. j :- not a. j :- not e, a. :- not j, j. %@constraint :- a, not j, not b.",
    "%@forall a :- not b. b :- not a. b :- not a. %@exists c | d. d :- a, c. %@forall e :- not g. g :- not e. e :- c, not d. f :- not f, not e. %@exists {h;i}. i :- not e, not f. i :- not d. :- not i. %@constraint :- not a, h, not f.",
    "%@exists {a;b} 1. :- b, not a. %@forall {c;d} 1. c :- not c. %@exists e :- not f. f :- not e. e :- a. :- f, c. %@forall {g;h} 1. g :- not b, not g. h :- c.",
    "%@forall {a;b} 1. a :- b. b :- a. %@exists c | d. c :- d. d :- not a, c. :- d, not a. %@forall {e;f;g} 1. %@exists h | i. i :- e. :- i, h.",
    "%@exists 1 {a;b} 1. b :- a. a :- a. %@forall c :- not d. d :- not c. :- not c, not a. %@exists {e;f;g} 1. e :- d, c. :- g, f. %@forall h :- not i. i :- not h. h :- not h. %@constraint :- not e, h. :- not f, i, not c.",
    "%@forall {a;b} 1. a :- a, not a. %@exists 1 {c;d} 1 :- not a. c :- not c. d :- not d, not c. :- c. %@forall e :- not f. f :- not e. :- e, d. %@exists g :- not i. i :- not g. g :- b, not i.",
    "%@exists a :- not b. b :- not a. %@forall {c;d;e} 1. e :- not d. %@exists f :- not g. g :- not f. %@forall h :- not i. i :- not h.",
    "%@forall a | b. a :- not a. %@exists c :- not e. e :- not c. c :- not b. e :- not e. :- not e, not a. %@forall {f;g} 1. :- g, a. %@exists h | i. h :- a.",
    "%@exists {a;b;c} 1. b :- not a. %@forall d :- not f. f :- not d. :- f, c. %@exists g :- not h. h :- not g. h :- b, not h. %@forall {i;j} 2. :- j, f. %@constraint :- not f, not j, not a. :- not j, i, not c.",
    "%@forall a :- not b. b :- not a. a :- b, a. %@exists {c;d;e} 2. e :- a, not c. %@forall {f;g} 1. %@exists 1 {h;i} 1. h :- a, h. h :- not d, not h. %@constraint :- e, i. :- not a, h, g.",
    "%@exists a | b. :- b, not a. %@forall c :- not d. d :- not c. d :- c, b. :- d, b. %@exists {e;f;g}. g :- f. %@forall h :- not j. j :- not h. j :- h.",
    "%@forall {a;b} 1. a :- b. :- a. %@exists {c;d} 2. c :- d. %@forall e :- not g. g :- not e. %@exists h | i. h :- c, not g. :- not h, c.",
    "%@exists a :- not b. b :- not a. a :- a. b :- b, a. %@forall c :- not d. d :- not c. d :- not d, b. :- c, not a. %@exists 1 {e;f} 1. :- e, a. %@forall {g;h}.",
    "%@forall {a;b}. b :- not b. a :- a. %@exists {c;d} 1. c :- b. d :- not b. %@forall {e;f} 1. :- not e, d. %@exists g :- not i. i :- not g. :- g, b.",
];

/// Programs of five levels.
const FIVE_LEVELS: [&str; 16] = [
    "%@exists {a;b} 1. a :- a. b :- a. %@forall {c;d} 1. c :- d, a. %@exists e :- not f. f :- not e. e :- d, f. :- e, not f. %@forall g | h. h :- not d, not h. :- g, e. %@forall {i;j;k} 1. :- j, i. %@constraint :- not f, not k, g. :- b, i, not a.",
    "%@forall a :- not b. b :- not a. a :- a. %@exists {c;d} 1. c :- b, not d. %@forall {e;f}. f :- not b. %@exists {g;h;i} 1. i :- not a. %@forall j | k. k :- not a. k :- not a, i. %@constraint :- not e, not j, not h.",
    "%@exists {a;b}. b :- not b, b. :- b, a. %@exists {c;d} 2. d :- a. c :- b. :- d, b. %@forall {e;f} 1. e :- not d. e :- not c, a. :- not e. %@exists {g;h}. h :- g. %@forall {i;j;k} 1 :- a. i :- not j. :- j, g.",
    "%@forall {a;b;c} 1. c :- a, not a. %@exists {d;e} 1 :- b. d :- not d, b. :- e, a. %@forall {f;g}. f :- a. :- g, not a. %@exists {h;i} 1 :- not c. :- not i, f. %@forall {j;k}. k :- a, not k. %@constraint :- g, j, b.",
    "%@exists {a;b} 2. %@forall {c;d;e} 2. c :- not a. :- not c, a. %@exists f | g. g :- not g. %@forall {h;i} 1. h :- c, h. %@exists j :- not k. k :- not j. k :- not e. j :- f, g. %@constraint :- c, not j, not a. :- not h, j, not j.",
    "%@forall a | b. %@exists c :- not d. d :- not c. c :- d, b. :- not c, a. %@forall 1 {e;f} 1 :- b. f :- c. %@exists {g;h;i} 2. i :- not e, d. i :- i. :- not i, i. %@forall {j;k}. k :- not j. k :- not d.",
    "%@exists {a;b}. a :- b. %@forall {c;d} 1. d :- not c, a. %@exists e :- not f. f :- not e. :- e, not b. %@forall g :- not i. i :- not g. h :- f. h :- not a. :- h, b. %@exists 1 {j;k} 1. j :- not k, h. k :- f, not b. :- j, not e. %@constraint :- i, not j, not h. :- not b, k, not c.",
    "%@forall {a;b;c} 1. b :- a. %@exists {d;e} 2. %@forall f | g. f :- g. %@exists 1 {h;i} 1 :- f. h :- not d, not f. i :- a, not c. %@forall {j;k} 2. j :- g, not g.",
    "%@exists a :- not b. b :- not a. a :- b, not a. %@forall c :- not e. e :- not c. %@exists {f;g}. g :- not c, g. %@forall 1 {h;i} 1. i :- not g, f. %@exists {j;k} 2. k :- not d. j :- not g, not c.",
    "%@forall a | b | c. a :- b. a :- not a, c. %@exists {d;e} 2. %@forall {f;g} 1. %@exists h :- not i. i :- not h. i :- h, d. %@forall {j;k} 1. k :- j. %@constraint :- f, not j. :- not k, not j, h.",
    "%@exists {a;b}. b :- a, not a. b :- a, not a. :- a, b. %@forall {c;d} 2. d :- b. %@exists {e;f} 1 :- not d. %@forall g | h. g :- not c. %@forall {i;j;k} 2. k :- not k. k :- not f, k. :- not i, not h.",
    "%@forall a :- not b. b :- not a. b :- not b. %@exists 1 {c;d} 1 :- a. d :- not c, not a. c :- a. :- d, not a. %@forall {e;f;g} 1. :- not f, b. %@exists {h;i} 2. %@forall j :- not k. k :- not j. j :- not d. %@constraint :- e, not k, not i.",
    "%@exists a :- not b. b :- not a. a :- not a. %@forall c | d. c :- d, a. :- d, not b. %@exists e | f. e :- not b, not e. e :- not b, c. %@forall {g;h} 1. g :- not c. g :- a, c. :- g, d. %@exists i :- not k. k :- not i. j :- not b, g. i :- not k, not i. %@constraint :- not j, j, f.",
    "%@forall a :- not b. b :- not a. b :- b. a :- not b. %@exists {c;d} 1. c :- a. %@forall {e;f}. %@exists {g;h} 2. g :- not e. %@forall i | j | k. %@constraint :- b, not k, h. :- j, b.",
    "%@exists {a;b} 1. a :- not b. %@forall {c;d} 1 :- not a. %@forall {e;f} 1. %@exists g :- not i. i :- not g. :- h, not h. %@forall {j;k} 1 :- not i. k :- not i. :- j, g.",
    "%@forall {a;b} 1. %@exists c | d. %@forall {e;f}. f :- b, not d. :- not e, not d. %@exists {g;h} 2. h :- not a. :- h, c. %@exists i | j. j :- not j, j. :- i, not j. %@constraint :- i, not j. :- f, i, j.",
];

/// Whether a game of few atoms is coherent, by trying all sets.
fn plain_of(alloc: Global, game: &Game) -> Option<bool>
    requires valid { IsValid game.now }
    requires few { length game.now.bases.atoms ≤ most_masked }
{
    coherent(alloc, game).ok()
}

/// Whether the program of a text is coherent, by trying all sets.
fn plain(alloc: Global, text: &str) -> Option<bool> {
    let game = game(alloc, text)?;
    if game.bases.atoms.len() > MOST_ATOMS {
        return None;
    }
    plain_of(alloc, &game)
}

/// Solves a text, compares with the enumeration, and answers the verdict.
fn verdict_of(alloc: Global, text: &str) -> Result<bool, Fail> {
    let Some(coherent) = plain(alloc, text) else {
        return Err(Fail::new(text));
    };
    check_verdict(alloc, text, coherent)?;
    Ok(coherent)
}

/// Solves each text, and answers how many are coherent.
fn count_coherent(alloc: Global, rows: &[&str]) -> Result<u32, Fail> {
    let mut count = 0u32;
    for text in rows {
        if verdict_of(alloc, text)? {
            count = count.saturating_add(1);
        }
    }
    Ok(count)
}

/// Solves each text, of which some are coherent, and some aren't.
fn run_rows(alloc: Global, rows: &[&str]) -> Result<(), Fail> {
    let coherent = count_coherent(alloc, rows)?;
    expect(0 < coherent && coherent < 16, "both verdicts come")
}

#[test]
fn agrees_on_two_levels(rt: HostRuntime) -> Result<(), Fail> {
    run_rows(rt.alloc(), &TWO_LEVELS)
}

#[test]
fn agrees_on_three_levels(rt: HostRuntime) -> Result<(), Fail> {
    run_rows(rt.alloc(), &THREE_LEVELS)
}

#[test]
fn agrees_on_four_levels(rt: HostRuntime) -> Result<(), Fail> {
    run_rows(rt.alloc(), &FOUR_LEVELS)
}

#[test]
fn agrees_on_five_levels(rt: HostRuntime) -> Result<(), Fail> {
    run_rows(rt.alloc(), &FIVE_LEVELS)
}
