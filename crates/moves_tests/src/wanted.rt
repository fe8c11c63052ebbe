//! What is wanted of a question.

ghost use Rattle.std.specs.Prelude.{◌≡◌, ◌≤◌, IfSome};
ghost use Rattle.asp_defs.specs.Games.{IsValid, level_count};

use asked_moves::asked::{Listed, ask};
use asp_answers::Answers;
use asp_defs::{Game, Lit};
use std::alloc::Global;

/// Whether these are the moves, which ascend, and the core: the atoms that it has as true, and those that it has as false. Where
/// there are moves, the core may have a part of these.
fn is_wanted(listed: &Listed, moves: &[u32], core: (u32, u32)) -> bool {
    let (held, out) = listed.core;
    let is_part = held & !core.0 == 0 && out & !core.1 == 0;
    listed.moves.as_slice() == moves && (listed.core == core || (!moves.is_empty() && is_part))
}

/// Puts a question, and tells whether it has the moves and the core.
pub fn is_listed(
    alloc: Global,
    answers: &mut Answers,
    game: &Game,
    level: u32,
    outer: u32,
    region: &[Lit],
    moves: &[u32],
    core: (u32, u32),
) -> Option<bool>
    requires valid { IsValid game.now }
    requires first { 1 ≤ level }
    requires last { level ≤ level_count game.now }
    requires game { answers.old.moves.game ≡ game.now }
    requires level { answers.old.moves.level ≡ level }
    ensures game { IfSome result (λ listed. answers.new.moves.game ≡ game.now) }
    ensures level { IfSome result (λ listed. answers.new.moves.level ≡ level) }
{
    let listed = ask(alloc, answers, game, level, outer, region)?;
    Some(is_wanted(&listed, moves, core))
}
