//! Every outer move in the cubes of moves of random levels is tried.
ghost use Rattle.std.specs.Prelude.{◌≡◌, IfSome, length};
ghost use Rattle.asp_defs.specs.Games.{IsValid};

use crate::drawn::{Rules, put_rules, rules};
use crate::explaining::{cube_of, put};
use crate::holding::is_held;
use crate::series::Series;
use crate::tried::{is_coherent, put_truth};
use asp_bits::Bits;
use asp_defs::Game;
use asp_entry::Cube;
use bases_tests::rows::expect;
use bases_tests::texts::game;
use std::alloc::{AllocError, Global};
use std::test::Fail;

/// As many outer moves as there are, over a and b.
const OUTER_MOVES: u32 = 4;

/// As many sets as there are, over a to d.
const SETS: u32 = 16;

/// A level that chooses a and b, and one with the rules on c and d.
const FIRST: &str = "%@exists {a}. {b}.\n";

const SECOND: &str = "%@exists c :- c. d :- d.\n";

/// A row of a series: the rules, a set by its bits, a the lowest, and the atoms of `won` in the same way.
#[derive(Clone, Copy)]
struct Asked {
    rules: Rules,
    set: u32,
    won: u32,
}

/// Adds that the atoms of a mask are true or false as in a set.
fn put_truths(text: &mut String, mask: u32, set: u32) -> Result<(), AllocError> {
    let names: &[(u32, &'static str)] = &[(1, "a"), (2, "b"), (4, "c"), (8, "d")];
    for (bit, name) in names {
        if mask & *bit != 0 {
            put_truth(text, name, set & *bit != 0)?;
        }
    }
    Ok(())
}

/// The text of the two levels.
fn both(alloc: Global, rules: &Rules) -> Result<String, AllocError> {
    let mut text = String::new(alloc);
    text.push_str(FIRST)?;
    text.push_str(SECOND)?;
    put_rules(&mut text, rules)?;
    Ok(text)
}

/// The text of the two levels where the first has just this outer move, and the second just moves that are as a set on the
/// atoms of a mask.
fn fixed(alloc: Global, asked: &Asked, outer_move: u32) -> Result<String, AllocError> {
    let mut text = String::new(alloc);
    text.push_str(FIRST)?;
    put_truths(&mut text, 0b11, outer_move)?;
    text.push_str(SECOND)?;
    put_rules(&mut text, &asked.rules)?;
    put_truths(&mut text, asked.won, asked.set)?;
    Ok(text)
}

/// Whether the second level has a move after this outer move that is as the set on the atoms of `won`, by trying all sets.
fn has_move(alloc: Global, asked: &Asked, outer_move: u32) -> bool {
    match fixed(alloc, asked, outer_move) {
        Ok(text) => is_coherent(alloc, text.as_str()) == Some(true),
        Err(_) => false,
    }
}

/// The set with these bits, of so many atoms; none where memory is refused.
fn set_of(alloc: Global, game: &Game, bits: u32) -> Option<Bits>
    requires { IsValid game.now }
    ensures { IfSome result (λ set. length set ≡ length game.now.bases.atoms) }
{
    let Ok(mut set) = Bits::new(alloc, game.bases.atoms.len() as u32) else {
        return None;
    };
    let mut rest = bits;
    for atom in 0..set.len() {
        put(&mut set, atom, rest % 2 == 1);
        rest /= 2;
    }
    Some(set)
}

/// The literals of the set on the atoms of `won`; none where memory is refused.
fn won_cube(alloc: Global, game: &Game, asked: &Asked) -> Option<Cube>
    requires { IsValid game.now }
{
    let atoms = set_of(alloc, game, asked.won)?;
    let set = set_of(alloc, game, asked.set)?;
    Cube::of_places(alloc, &atoms, &set).ok()
}

/// The cube of the outer move that the set has, where the set is a move after it.
fn asked_cube(alloc: Global, game: &Game, asked: &Asked) -> Option<Cube>
    requires { IsValid game.now }
{
    let outer_move = set_of(alloc, game, asked.set % OUTER_MOVES)?;
    let set = set_of(alloc, game, asked.set)?;
    let won = won_cube(alloc, game, asked)?;
    cube_of(alloc, game, 2, &outer_move, &set, &won)
}

/// Whether the cube holds an outer move; none where memory is refused.
fn holds_move(alloc: Global, game: &Game, cube: &Cube, bits: u32) -> Option<bool>
    requires { IsValid game.now }
{
    let set = set_of(alloc, game, bits)?;
    Some(is_held(cube, &set))
}

/// Whether the level has a move that `won` holds after each outer move in the cube.
fn is_sound(alloc: Global, game: &Game, asked: &Asked, cube: &Cube) -> bool
    requires { IsValid game.now }
{
    for bits in 0..OUTER_MOVES {
        match holds_move(alloc, game, cube, bits) {
            Some(false) => {}
            Some(true) => {
                if !has_move(alloc, asked, bits) {
                    return false;
                }
            }
            None => return false,
        }
    }
    true
}

/// Whether the cube is right where the set is a move, and there is none where it isn't.
fn is_game_right(alloc: Global, game: &Game, asked: &Asked) -> bool
    requires { IsValid game.now }
{
    let whole = Asked {
        won: SETS - 1,
        ..*asked
    };
    let is_move = has_move(alloc, &whole, asked.set % OUTER_MOVES);
    match asked_cube(alloc, game, asked) {
        Some(cube) => {
            is_move
                && holds_move(alloc, game, &cube, asked.set % OUTER_MOVES) == Some(true)
                && is_sound(alloc, game, asked, &cube)
        }
        None => !is_move,
    }
}

/// The same of the game of a text.
fn is_text_right(alloc: Global, text: &str, asked: &Asked) -> bool {
    match game(alloc, text) {
        Some(game) => is_game_right(alloc, &game, asked),
        None => false,
    }
}

/// Tries all sets as moves of a level with these rules, each with other atoms of `won`.
fn try_sets(alloc: Global, series: &mut Series, rules: &Rules, text: &str) -> Result<(), Fail> {
    for set in 0..SETS {
        let won = series.next() % SETS;
        let asked = Asked {
            rules: *rules,
            set,
            won,
        };
        expect(is_text_right(alloc, text, &asked), text)?;
    }
    Ok(())
}

/// Tries the sets of the next rules of a series.
fn try_rules(alloc: Global, series: &mut Series, count: u32) -> Result<(), Fail> {
    for _ in 0..count {
        let rules = rules(series);
        let text = both(alloc, &rules)?;
        try_sets(alloc, series, &rules, text.as_str())?;
    }
    Ok(())
}

#[test]
fn the_moves_in_a_cube_have_a_move_that_is_won(rt: HostRuntime) -> Result<(), Fail> {
    let mut series = Series { state: 1 };
    try_rules(rt.alloc(), &mut series, 12)
}
