//! A question to one worker, and whether the answer is the one that is wanted.
ghost use Rattle.std.specs.Prelude.{◌≡◌, ◌+◌};
ghost use Rattle.asp_defs.specs.Games.{IsValid, level_count};

use crate::outer::outer_move;
use asp_defs::{Game, Give, Kind, Unknown};
use asp_store::Store;
use asp_team::{Single, node_single};
use bases_tests::texts::game;
use std::alloc::Global;
use std::sync::Arc;

/// What an answer is to be.
#[derive(Clone, Copy)]
pub enum Wanted {
    /// The entry at a position, with this verdict.
    Entry(u32, bool),
    /// What is spent, at which level, and how much was allowed.
    Spent(Kind, u32, u64),
}

/// A level, an outer move by its letters, the answer, and how many entries there are then.
pub type Question = (u32, &'static str, Wanted, u32);

/// One worker for the game of a text, of whom nothing was asked yet.
pub fn worker(alloc: Global, text: &str, budget: u64, cells: u64) -> Option<Single> {
    let game = game(alloc, text)?;
    let Ok(shared) = Arc::new(alloc, game) else {
        return None;
    };
    Single::new(alloc, shared, budget, cells.min(500_000_000)).ok()
}

/// The level behind the last one.
fn level_behind(game: &Game) -> u32
    requires { IsValid game.now }
    ensures { result ≡ level_count game.now + 1 }
{
    game.quants.len() as u32 + 1
}

/// Puts a question; none where the game has no such level or memory is refused.
fn answer(
    alloc: Global,
    team: &mut Single,
    level: u32,
    letters: &str,
) -> Option<Result<u32, Give>> {
    let game = team.store().game();
    if level == 0 || level > level_behind(game) {
        return None;
    }
    let outer = outer_move(alloc, game, level, letters)?;
    Some(node_single(alloc, team, level, &outer))
}

/// Whether an entry of the level is at the position, with this verdict.
fn is_entry(store: &Store, at: u32, level: u32, verdict: bool) -> bool {
    if at >= store.len() {
        return false;
    }
    let entry = store.entry(at);
    entry.level == level && entry.verdict == verdict
}

/// Whether the answer of a level is the one that is wanted.
fn is_wanted(store: &Store, level: u32, answer: Result<u32, Give>, wanted: Wanted) -> bool {
    match (answer, wanted) {
        (Ok(at), Wanted::Entry(place, verdict)) => {
            at == place && is_entry(store, at, level, verdict)
        }
        (Err(Give::Spent(unknown)), Wanted::Spent(kind, level, budget)) => {
            unknown
                == Unknown {
                    kind,
                    level,
                    budget,
                }
        }
        _ => false,
    }
}

/// Puts a question, and tells whether the answer and the number of entries are those that are wanted.
pub fn is_right(alloc: Global, team: &mut Single, question: &Question) -> bool {
    let (level, letters, wanted, count) = *question;
    let Some(answer) = answer(alloc, team, level, letters) else {
        return false;
    };
    is_wanted(team.store(), level, answer, wanted) && team.store().len() == count
}
