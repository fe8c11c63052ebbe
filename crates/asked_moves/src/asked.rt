//! The moves of a level as masks, asked for until none is left.
ghost use Rattle.std.specs.Prelude.{◌≡◌, ◌≢◌, ◌≤◌, OnOk, IfSome};
ghost use Rattle.asp_bits.specs.Places.{true_places};
ghost use Rattle.asp_defs.specs.Games.{IsValid, level_count, base as base_of};
ghost use Rattle.asp_game.specs.State.{Unasked, FoundMove};
ghost use Rattle.asked_moves.specs.Asking.{IsAsked};

use crate::questions::{are_in, base, is_region, literals, outer_move};
use asp_answers::Answers;
use asp_bits::Bits;
use asp_defs::{Game, Lit, NoMemory};
use asp_game::{Moves, Step};
use std::alloc::Global;

/// The moves of a level, ascending, as masks of their atoms, and the core: the atoms that it has as true, and those that it has as
/// false.
#[derive(Drop)]
pub struct Listed {
    pub moves: Vec<u32>,
    pub core: (u32, u32),
}

/// The mask of an interpretation.
fn mask(set: &Bits) -> u32 {
    let mut mask = 0;
    for atom in 0..set.len().min(32) {
        mask |= u32::from(set.get(atom)) << atom;
    }
    mask
}

/// The mask of the atoms of the literals with this sign.
fn part(literals: &[Lit], positive: bool) -> u32 {
    let mut mask = 0;
    for literal in literals {
        if literal.positive == positive && literal.atom < 32 {
            mask |= 1 << literal.atom;
        }
    }
    mask
}

/// Appends the mask of the move that was found, and blocks it with all its literals.
fn take(
    alloc: Global,
    answers: &mut Answers,
    base: &[u32],
    set: &Bits,
    moves: &mut Vec<u32>,
) -> Result<(), NoMemory>
    requires base { base.now ≡ base_of answers.old.moves.game answers.old.moves.level }
    requires found { answers.old.moves.last ≡ FoundMove (true_places set.now) }
    ensures { OnOk result (IsAsked answers.old.moves answers.new.moves) }
{
    moves.push(mask(set))?;
    let cube = literals(alloc, base, set)?;
    answers.block(alloc, cube.as_slice())
}

/// The next move, which is blocked then, or the core; none where a fault comes.
pub fn step(
    alloc: Global,
    answers: &mut Answers,
    base: &[u32],
    moves: &mut Vec<u32>,
) -> Option<Option<(u32, u32)>>
    requires base { base.now ≡ base_of answers.old.moves.game answers.old.moves.level }
    requires asked { answers.old.moves.last ≢ Unasked }
    ensures { IfSome result (λ end. IsAsked answers.old.moves answers.new.moves) }
{
    let Ok(step) = answers.next(alloc) else {
        return None;
    };
    match step {
        Step::Found(set) => {
            if take(alloc, answers, base, &set, moves).is_err() {
                return None;
            }
            Some(None)
        }
        Step::Core(core) => {
            let literals = core.as_slice();
            Some(Some((part(literals, true), part(literals, false))))
        }
    }
}

/// Appends all moves of the question, at most 256, each blocked with all its literals, and answers the core.
fn list(
    alloc: Global,
    answers: &mut Answers,
    base: &[u32],
    moves: &mut Vec<u32>,
) -> Option<(u32, u32)>
    requires base { base.now ≡ base_of answers.old.moves.game answers.old.moves.level }
    requires asked { answers.old.moves.last ≢ Unasked }
    ensures { IfSome result (λ core. IsAsked answers.old.moves answers.new.moves) }
{
    for _ in 0..257 {
        let end = step(alloc, answers, base, moves)?;
        if let Some(core) = end {
            return Some(core);
        }
    }
    None
}

/// The moves of the question that was put last, and the core.
pub fn all_moves(alloc: Global, answers: &mut Answers, base: &[u32]) -> Option<Listed>
    requires base { base.now ≡ base_of answers.old.moves.game answers.old.moves.level }
    requires asked { answers.old.moves.last ≢ Unasked }
    ensures { IfSome result (λ listed. IsAsked answers.old.moves answers.new.moves) }
{
    let mut moves = Vec::new(alloc);
    let core = list(alloc, answers, base, &mut moves)?;
    moves.sort_unstable();
    Some(Listed { moves, core })
}

/// Puts a question.
pub fn put(
    alloc: Global,
    answers: &mut Answers,
    game: &Game,
    level: u32,
    outer: u32,
    region: &[Lit],
) -> Option<()>
    requires valid { IsValid game.now }
    requires first { 1 ≤ level }
    requires last { level ≤ level_count game.now }
    requires game { answers.old.moves.game ≡ game.now }
    requires level { answers.old.moves.level ≡ level }
    ensures { IfSome result (λ put. IsAsked answers.old.moves answers.new.moves) }
{
    if !is_region(game, level, region) {
        return None;
    }
    let outer = outer_move(alloc, game, level, outer)?;
    match answers.begin(alloc, &outer, region, false) {
        Ok(()) => Some(()),
        Err(_) => None,
    }
}

/// Keeps a cube, if the level's base has its atoms.
pub fn keep(
    alloc: Global,
    answers: &mut Answers,
    game: &Game,
    level: u32,
    cube: &[Lit],
) -> Option<()>
    requires valid { IsValid game.now }
    requires last { level ≤ level_count game.now }
    requires game { answers.old.moves.game ≡ game.now }
    requires level { answers.old.moves.level ≡ level }
    ensures game { IfSome result (λ kept. answers.new.moves.game ≡ game.now) }
    ensures level { IfSome result (λ kept. answers.new.moves.level ≡ level) }
    ensures last { IfSome result (λ kept. answers.new.moves.last ≡ answers.old.moves.last) }
{
    if !are_in(base(game, level), cube) {
        return None;
    }
    match answers.keep(alloc, cube) {
        Ok(()) => Some(()),
        Err(_) => None,
    }
}

/// Puts a question, and answers all its moves and the core.
pub fn ask(
    alloc: Global,
    answers: &mut Answers,
    game: &Game,
    level: u32,
    outer: u32,
    region: &[Lit],
) -> Option<Listed>
    requires valid { IsValid game.now }
    requires first { 1 ≤ level }
    requires last { level ≤ level_count game.now }
    requires game { answers.old.moves.game ≡ game.now }
    requires level { answers.old.moves.level ≡ level }
    ensures game { IfSome result (λ listed. answers.new.moves.game ≡ game.now) }
    ensures level { IfSome result (λ listed. answers.new.moves.level ≡ level) }
{
    put(alloc, answers, game, level, outer, region)?;
    all_moves(alloc, answers, base(game, level))
}
