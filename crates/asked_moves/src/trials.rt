//! Trials on the moves of a level of a text.
ghost use Rattle.std.specs.Prelude.{◌≡◌, ◌≤◌, IfSome};
ghost use Rattle.asp_defs.specs.Games.{IsValid, level_count};

use asp_answers::Answers;
use asp_defs::Game;
use bases_tests::texts::game;
use std::alloc::Global;
use std::sync::Arc;

/// What is tried on the moves of a level, of which none was asked for yet.
pub trait Trial {
    /// Whether it goes right; none where a fault comes.
    fn run(&mut self, alloc: Global, answers: &mut Answers, game: &Game, level: u32) -> Option<bool>
        requires valid { IsValid game.now }
        requires first { 1 ≤ level }
        requires last { level ≤ level_count game.now }
        requires game { answers.old.moves.game ≡ game.now }
        requires level { answers.old.moves.level ≡ level };
}

/// The game of a text, to be shared.
fn shared(alloc: Global, text: &str) -> Option<Arc<Game>>
    ensures { IfSome result (λ game. IsValid game.value) }
{
    let game = game(alloc, text)?;
    match Arc::new(alloc, game) {
        Ok(shared) => Some(shared),
        Err(_) => None,
    }
}

/// The moves of a level, of which none was asked for yet.
fn answers(alloc: Global, game: &Arc<Game>, level: u32, budget: u64) -> Option<Answers>
    requires valid { IsValid game.now.value }
    requires first { 1 ≤ level }
    requires last { level ≤ level_count game.now.value }
    ensures game { IfSome result (λ answers. answers.moves.game ≡ game.now.value) }
    ensures level { IfSome result (λ answers. answers.moves.level ≡ level) }
{
    let Ok(shared) = game.clone() else {
        return None;
    };
    match Answers::new(alloc, shared, level, budget) {
        Ok(answers) => Some(answers),
        Err(_) => None,
    }
}

/// Whether a text has a game.
pub fn has_game(alloc: Global, text: &str) -> bool {
    game(alloc, text).is_some()
}

/// Whether a trial goes right on a level of a game; none where a fault comes.
fn try_level<T: Trial>(
    alloc: Global,
    game: &Arc<Game>,
    level: u32,
    budget: u64,
    trial: &mut T,
) -> Option<bool>
    requires valid { IsValid game.now.value }
    requires first { 1 ≤ level }
    requires last { level ≤ level_count game.now.value }
{
    let mut answers = answers(alloc, game, level, budget)?;
    trial.run(alloc, &mut answers, game, level)
}

/// Whether a trial goes right on a level of a text; none where the text has no such level, or a fault comes.
pub fn try_text<T: Trial>(
    alloc: Global,
    text: &str,
    level: u32,
    budget: u64,
    trial: &mut T,
) -> Option<bool> {
    let game = shared(alloc, text)?;
    if level == 0 || level as usize > game.quants.len() {
        return None;
    }
    try_level(alloc, &game, level, budget, trial)
}
