//! Every outer move in the cubes of random constraints is tried.
ghost use Rattle.asp_defs.specs.Games.{IsValid};

use crate::drawn::{Constraints, constraints, put_constraints};
use crate::holding::is_held;
use crate::moves::outer_move;
use crate::series::Series;
use asp_defs::Game;
use asp_entry::Cube;
use asp_eval::evaluate;
use asp_plain::{MOST_ATOMS, coherent};
use bases_tests::rows::expect;
use bases_tests::texts::game;
use std::alloc::{AllocError, Global};
use std::test::Fail;

/// As many outer moves as there are.
const MOVES: u32 = 16;

/// How the levels choose a to d.
fn levels(form: u32) -> &'static str {
    match form % 3 {
        0 => "%@exists {a}. {b}. {c}. {d}.\n",
        1 => "%@exists {a}. {b}. %@forall {c}. {d}.\n",
        _ => "%@forall {a}. {b}. %@exists {c}. {d}.\n",
    }
}

/// Adds that an atom is true, or that it is false.
pub fn put_truth(text: &mut String, name: &'static str, truth: bool) -> Result<(), AllocError> {
    text.push_str(if truth { ":- not " } else { ":- " })?;
    text.push_str(name)?;
    text.push_str(".\n")
}

/// The text of the constraints behind levels.
fn asked(alloc: Global, constraints: &Constraints, form: u32) -> Result<String, AllocError> {
    let mut text = String::new(alloc);
    text.push_str(levels(form))?;
    text.push_str("%@constraint\n")?;
    put_constraints(&mut text, constraints)?;
    Ok(text)
}

/// The text of a level with no answer set but one, and the constraints behind it.
fn settled(alloc: Global, constraints: &Constraints, bits: u32) -> Result<String, AllocError> {
    let mut text = String::new(alloc);
    text.push_str(levels(0))?;
    put_truth(&mut text, "a", bits & 1 != 0)?;
    put_truth(&mut text, "b", bits & 2 != 0)?;
    put_truth(&mut text, "c", bits & 4 != 0)?;
    put_truth(&mut text, "d", bits & 8 != 0)?;
    text.push_str("%@constraint\n")?;
    put_constraints(&mut text, constraints)?;
    Ok(text)
}

/// Whether a text is coherent, by trying all sets.
pub fn is_coherent(alloc: Global, text: &str) -> Option<bool> {
    let game = game(alloc, text)?;
    if game.bases.atoms.len() > MOST_ATOMS {
        return None;
    }
    let Ok(verdict) = coherent(alloc, &game) else {
        return None;
    };
    Some(verdict)
}

/// Whether the cube holds an outer move; none where memory is refused.
fn holds_move(alloc: Global, game: &Game, cube: &Cube, bits: u32) -> Option<bool>
    requires { IsValid game.now }
{
    let set = outer_move(alloc, game, bits)?;
    Some(is_held(cube, &set))
}

/// Whether no constraint is broken by an outer move, by trying all sets.
fn is_won(alloc: Global, constraints: &Constraints, bits: u32) -> Option<bool> {
    let Ok(text) = settled(alloc, constraints, bits) else {
        return None;
    };
    is_coherent(alloc, text.as_str())
}

/// Whether each outer move in the cube has the verdict.
fn share_verdict(
    alloc: Global,
    constraints: &Constraints,
    game: &Game,
    cube: &Cube,
    verdict: bool,
) -> bool
    requires { IsValid game.now }
{
    for bits in 0..MOVES {
        match holds_move(alloc, game, cube, bits) {
            Some(false) => {}
            Some(true) => {
                if is_won(alloc, constraints, bits) != Some(verdict) {
                    return false;
                }
            }
            None => return false,
        }
    }
    true
}

/// Whether the cube of an outer move holds it, and only moves with its verdict.
fn is_sound(alloc: Global, constraints: &Constraints, game: &Game, bits: u32) -> bool
    requires { IsValid game.now }
{
    let Some(set) = outer_move(alloc, game, bits) else {
        return false;
    };
    match evaluate(alloc, game, &set) {
        Ok(judged) => {
            is_held(&judged.cube, &set)
                && share_verdict(alloc, constraints, game, &judged.cube, judged.verdict)
        }
        Err(_) => false,
    }
}

/// Whether the cube of an outer move of a text is sound.
fn is_text_sound(alloc: Global, constraints: &Constraints, text: &str, bits: u32) -> bool {
    match game(alloc, text) {
        Some(game) => is_sound(alloc, constraints, &game, bits),
        None => false,
    }
}

/// Tries cubes of the next constraints of a series.
fn try_constraints(alloc: Global, series: &mut Series, count: u32) -> Result<(), Fail> {
    for form in 0..count {
        let constraints = constraints(series);
        let bits = series.next() % MOVES;
        let text = asked(alloc, &constraints, form)?;
        expect(
            is_text_sound(alloc, &constraints, text.as_str(), bits),
            text.as_str(),
        )?;
    }
    Ok(())
}

#[test]
fn the_moves_in_a_cube_share_the_verdict(rt: HostRuntime) -> Result<(), Fail> {
    let mut series = Series { state: 1 };
    try_constraints(rt.alloc(), &mut series, 200)
}
