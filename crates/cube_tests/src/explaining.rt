//! The cube of a move.
ghost use Rattle.std.specs.Prelude.{◌≡◌, IfSome, length};
ghost use Rattle.asp_defs.specs.Games.{IsValid};

use crate::answering::is_move;
use crate::holding::{do_ascend, is_held};
use asp_bits::Bits;
use asp_defs::{Game, Lit, NoMemory};
use asp_entry::Cube;
use asp_explain::move_cube;
use bases_tests::rows::expect;
use bases_tests::texts::{game, put_atom};
use std::alloc::Global;
use std::test::Fail;

/// The cube of the outer move, where the set is a move of the level after it that `won` holds.
pub fn cube_of(
    alloc: Global,
    game: &Game,
    level: u32,
    outer_move: &Bits,
    set: &Bits,
    won: &Cube,
) -> Option<Cube>
    requires valid { IsValid game.now }
    requires outer_length { length outer_move.now ≡ length game.now.bases.atoms }
    requires set_length { length set.now ≡ length game.now.bases.atoms }
{
    if level < 1 || level as usize > game.quants.len() + 1 {
        return None;
    }
    if !is_move(alloc, game, level, outer_move, set) || !is_held(won, set) {
        return None;
    }
    move_cube(alloc, game, level, outer_move, set, won).ok()
}

/// A cube of a move: the move, and what is asked of it, by the names of atoms. A set has its true atoms; literals have a `-`
/// before the name where they are negative.
struct Row {
    name: &'static str,
    text: &'static str,
    level: u32,
    outer_move: &'static str,
    set: &'static str,
    won: &'static str,
    cube: &'static str,
}

const ROWS: [Row; 22] = [
    Row {
        name: "the outer atom of the only rule that founds an atom",
        text: "%@exists {a}. %@exists {b} :- a. %@forall {c}. %@constraint :- c, not b.",
        level: 2,
        outer_move: "a",
        set: "a b",
        won: "b",
        cube: "a",
    },
    Row {
        name: "a choice that isn't taken rests on nothing",
        text: "%@exists {a}. %@exists {b} :- a.",
        level: 2,
        outer_move: "a",
        set: "a",
        won: "-b",
        cube: "",
    },
    Row {
        name: "a negation that founds an atom",
        text: "%@exists {a}. %@exists {b} :- not a.",
        level: 2,
        outer_move: "",
        set: "b",
        won: "b",
        cube: "-a",
    },
    Row {
        name: "a level that reads no outer atom",
        text: "%@exists {a}. {d}. %@exists {b}.",
        level: 2,
        outer_move: "a",
        set: "a b",
        won: "b",
        cube: "",
    },
    Row {
        name: "the outer atoms of what was won",
        text: "%@exists {a}. {d}. %@exists {b}.",
        level: 2,
        outer_move: "a",
        set: "a b",
        won: "a b -d",
        cube: "a -d",
    },
    Row {
        name: "of two rules that found an atom the one with the fewest outer atoms",
        text: "%@exists {a}. {d}. {e}. %@exists b :- a, d. b :- e.",
        level: 2,
        outer_move: "a d e",
        set: "a b d e",
        won: "b",
        cube: "e",
    },
    Row {
        name: "a rule that founds an atom on own atoms",
        text: "%@exists {a}. {d}. %@exists {c}. b :- a. b :- c.",
        level: 2,
        outer_move: "a d",
        set: "a b c d",
        won: "b",
        cube: "",
    },
    Row {
        name: "of two literals that make a body false that of the least number",
        text: "%@exists {a}. {d}. %@exists :- a, d.",
        level: 2,
        outer_move: "",
        set: "",
        won: "",
        cube: "-a",
    },
    Row {
        name: "an own literal that makes a body false",
        text: "%@exists {a}. {d}. %@exists {b}. :- a, d, b.",
        level: 2,
        outer_move: "",
        set: "",
        won: "",
        cube: "",
    },
    Row {
        name: "a rule that would found a false atom",
        text: "%@exists {a}. {d}. %@exists {b}. b :- a, d.",
        level: 2,
        outer_move: "",
        set: "",
        won: "-b",
        cube: "-a",
    },
    Row {
        name: "the rule that founds an atom, and one that would found another",
        text: "%@exists {a}. {d}. %@exists b | c :- a. c :- d.",
        level: 2,
        outer_move: "a",
        set: "a b",
        won: "b",
        cube: "a -d",
    },
    Row {
        name: "the literal that makes the most bodies false",
        text: "%@exists {a}. {d}. {e}. %@exists :- a, d. :- d, e.",
        level: 2,
        outer_move: "",
        set: "",
        won: "",
        cube: "-d",
    },
    Row {
        name: "an own head atom before an outer one",
        text: "%@exists {a}. {d}. %@exists {b}. a | b :- d.",
        level: 2,
        outer_move: "a d",
        set: "a b d",
        won: "b",
        cube: "",
    },
    Row {
        name: "an outer head atom",
        text: "%@exists {a}. {d}. %@exists a :- d.",
        level: 2,
        outer_move: "a d",
        set: "a d",
        won: "",
        cube: "a",
    },
    Row {
        name: "a loop that is founded from outside",
        text: "%@exists {a}. {d}. %@exists b :- c. c :- b. b :- a. c :- d.",
        level: 2,
        outer_move: "a d",
        set: "a b c d",
        won: "c",
        cube: "a",
    },
    Row {
        name: "a bound with a true body",
        text: "%@exists {a}. {d}. %@exists 1 {b;c} 1 :- a.",
        level: 2,
        outer_move: "a",
        set: "a b",
        won: "b",
        cube: "a",
    },
    Row {
        name: "a bound with a false body",
        text: "%@exists {a}. {d}. %@exists 1 {b;c} 1 :- a.",
        level: 2,
        outer_move: "",
        set: "",
        won: "-b",
        cube: "-a",
    },
    Row {
        name: "a bound with conditions",
        text: "%@exists {a}. {d}. %@exists 1 {b : a; c : d} 1.",
        level: 2,
        outer_move: "a",
        set: "a b",
        won: "b",
        cube: "a -d",
    },
    // Those on b and d make two bodies false each, so b is taken for the first rule; what is taken for the third isn't needed.
    Row {
        name: "a chain of bodies over one base",
        text: "%@exists {a}. {b}. {c}. {d}. {e}. %@exists :- a, b. :- b, c. :- c, d. :- d, e.",
        level: 2,
        outer_move: "",
        set: "",
        won: "",
        cube: "-b -d",
    },
    // The literals on a, b, c and d are taken first. That on d is the only one of the last rule, and those on b and d serve all.
    Row {
        name: "a chain of bodies over five bases",
        text: "%@exists {a}. %@forall {b}. %@exists {c}. %@forall {d}. %@exists {e}. %@exists :- a, b. :- b, c. :- c, d. :- d, e.",
        level: 6,
        outer_move: "",
        set: "",
        won: "",
        cube: "-b -d",
    },
    Row {
        name: "the literal on the earliest base, though another has the least number",
        text: "%@exists {d}. %@forall {a}. %@exists :- a, d.",
        level: 3,
        outer_move: "",
        set: "",
        won: "",
        cube: "-d",
    },
    Row {
        name: "a literal that is taken for other reasons makes a body false too",
        text: "%@exists {a}. {d}. %@exists {b} :- not d. :- a, d.",
        level: 2,
        outer_move: "",
        set: "b",
        won: "b",
        cube: "-d",
    },
];

fn is_named(names: &str, name: &str) -> bool {
    names.split(' ').any(|part| part == name)
}

/// The name of an atom behind a sign.
fn name_of(alloc: Global, game: &Game, atom: u32, sign: &'static str) -> Option<String> {
    let mut name = String::new(alloc);
    let atom = game.bases.atoms.as_slice().get(atom as usize)?;
    name.push_str(sign).ok()?;
    put_atom(&mut name, atom).ok()?;
    Some(name)
}

/// Whether the atom is named behind a sign; none where memory is refused.
fn is_listed(
    alloc: Global,
    game: &Game,
    atom: u32,
    sign: &'static str,
    names: &str,
) -> Option<bool> {
    let name = name_of(alloc, game, atom, sign)?;
    Some(is_named(names, name.as_str()))
}

/// Puts the atom into the set, or takes it out, where it has a place.
pub fn put(set: &mut Bits, atom: u32, wanted: bool)
    ensures { length set.new ≡ length set.old }
{
    if atom < set.len() {
        set.set(atom, wanted);
    }
}

/// The set of the named atoms; none where memory is refused.
fn set_of(alloc: Global, game: &Game, names: &str) -> Option<Bits>
    requires { IsValid game.now }
    ensures { IfSome result (λ set. length set ≡ length game.now.bases.atoms) }
{
    let Ok(mut set) = Bits::new(alloc, game.bases.atoms.len() as u32) else {
        return None;
    };
    for atom in 0..set.len() {
        let is_true = is_listed(alloc, game, atom, "", names)?;
        put(&mut set, atom, is_true);
    }
    Some(set)
}

/// Adds the literals on an atom that are named.
fn add_lits(lits: &mut Vec<Lit>, alloc: Global, game: &Game, atom: u32, names: &str) -> Option<()> {
    if is_listed(alloc, game, atom, "", names)? {
        lits.push(Lit {
            atom,
            positive: true,
        })
        .ok()?;
    }
    if is_listed(alloc, game, atom, "-", names)? {
        lits.push(Lit {
            atom,
            positive: false,
        })
        .ok()?;
    }
    Some(())
}

/// The cube of the named literals; none where memory is refused.
fn lits_of(alloc: Global, game: &Game, names: &str) -> Option<Cube> {
    let mut lits: Vec<Lit> = Vec::new(alloc);
    for atom in 0..game.bases.atoms.len() {
        add_lits(&mut lits, alloc, game, u32::try_from(atom).ok()?, names)?;
    }
    if !do_ascend(lits.as_slice()) {
        return None;
    }
    Cube::from_lits(alloc, lits.as_slice()).ok()
}

fn put_literal(out: &mut String, game: &Game, lit: &Lit) -> Result<(), NoMemory> {
    if !out.is_empty() {
        out.push(' ')?;
    }
    if !lit.positive {
        out.push('-')?;
    }
    match game.bases.atoms.as_slice().get(lit.atom as usize) {
        Some(atom) => put_atom(out, atom),
        None => Ok(()),
    }
}

fn written(alloc: Global, game: &Game, cube: &Cube) -> Result<String, NoMemory> {
    let mut out = String::new(alloc);
    let lits = cube.lits();
    for lit in lits {
        put_literal(&mut out, game, lit)?;
    }
    Ok(out)
}

/// Whether the literals are these.
fn is_written(alloc: Global, game: &Game, cube: &Cube, expected: &str) -> bool {
    match written(alloc, game, cube) {
        Ok(text) => text.as_str() == expected,
        Err(_) => false,
    }
}

/// The cube of the row's move in its game.
fn row_cube(alloc: Global, game: &Game, row: &Row) -> Option<Cube>
    requires { IsValid game.now }
{
    let outer_move = set_of(alloc, game, row.outer_move)?;
    let set = set_of(alloc, game, row.set)?;
    let won = lits_of(alloc, game, row.won)?;
    cube_of(alloc, game, row.level, &outer_move, &set, &won)
}

fn is_game_right(alloc: Global, game: &Game, row: &Row) -> bool
    requires { IsValid game.now }
{
    match row_cube(alloc, game, row) {
        Some(cube) => is_written(alloc, game, &cube, row.cube),
        None => false,
    }
}

fn is_right(alloc: Global, row: &Row) -> bool {
    match game(alloc, row.text) {
        Some(game) => is_game_right(alloc, &game, row),
        None => false,
    }
}

fn run_rows(alloc: Global, rows: &[Row]) -> Result<(), Fail> {
    for row in rows {
        expect(is_right(alloc, row), row.name)?;
    }
    Ok(())
}

#[test]
fn a_move_rests_on_few_literals(rt: HostRuntime) -> Result<(), Fail> {
    run_rows(rt.alloc(), &ROWS)
}
