//! Budgets that are spent, and those that are enough.

ghost use Rattle.std.specs.Prelude.{◌≢◌};
ghost use Rattle.asp_game.specs.State.{Unasked};

use asked_moves::asked::put;
use asked_moves::trials::{Trial, try_text};
use asp_answers::Answers;
use asp_defs::{Game, Give, Kind, Unknown};
use asp_game::Moves;
use bases_tests::rows::expect;
use std::alloc::Global;
use std::test::Fail;

const THREE: &str = "%@exists a | b | c. a :- b. b :- c. c :- a. :- not a. :- not b. :- not c.";

/// A text, a number of placements that is enough for its first level's first answer, where one less isn't, and what is spent then.
type Budget = (&'static str, u64, Kind);

/// At most one of two atoms that both follow where a isn't true, beside three free atoms.
const AT_MOST_ONE: &str = "%@exists {a}. {b;c}1. {d}. {e}. {f}. :- not a, not b. :- not a, not c.";

const BUDGETS: [Budget; 7] = [
    // Two free atoms want two placements.
    ("%@exists {a}. {b}.", 2, Kind::Search),
    // Three atoms that follow from each other want three, and the check of the candidate more.
    (THREE, 6, Kind::Minimal),
    // Atoms are decided false at first. A bound that wants one atom makes the last one true at once: each atom is placed once. Where a
    // candidate without any has to be ruled out, one is placed again.
    ("%@exists 1{a;b}.", 2, Kind::Search),
    ("%@exists 1{a;b;c}1.", 3, Kind::Search),
    ("%@exists {c}. 1{a;b}1 :- c. :- not c.", 3, Kind::Search),
    (
        "%@exists c. {a;b}. {d;e}0 :- c. 1{a;b} :- c.",
        5,
        Kind::Search,
    ),
    // a is decided, b and c follow, and can't both be true: so a is true, and b or c and the free atoms are placed. A candidate that
    // has to be ruled out has the free atoms first, and they are placed again behind it.
    (AT_MOST_ONE, 9, Kind::Search),
];

/// The open answer of a spent budget that comes first, or that none does.
#[derive(Drop)]
struct Spent {
    unknown: Option<Unknown>,
}

/// The first answer to a question that was put, where it is that a budget is spent and comes again.
fn fault(alloc: Global, answers: &mut Answers) -> Option<Unknown>
    requires { answers.old.moves.last ≢ Unasked }
{
    let first = answers.next(alloc).err()?;
    let again = answers.next(alloc).err()?;
    match (first, again) {
        (Give::Spent(first), Give::Spent(again)) if first == again => Some(first),
        _ => None,
    }
}

impl Trial for Spent {
    fn run(
        &mut self,
        alloc: Global,
        answers: &mut Answers,
        game: &Game,
        level: u32,
    ) -> Option<bool> {
        put(alloc, answers, game, level, 0, &[])?;
        Some(fault(alloc, answers) == self.unknown)
    }
}

fn is_budget_right(alloc: Global, row: &Budget) -> bool {
    let (text, enough, kind) = *row;
    let budget = enough.saturating_sub(1);
    let mut spent = Spent {
        unknown: Some(Unknown {
            kind,
            level: 1,
            budget,
        }),
    };
    let mut unspent = Spent { unknown: None };
    try_text(alloc, text, 1, budget, &mut spent) == Some(true)
        && try_text(alloc, text, 1, enough, &mut unspent) == Some(true)
}

fn run_budgets(alloc: Global, rows: &[Budget]) -> Result<(), Fail> {
    for row in rows {
        expect(is_budget_right(alloc, row), row.0)?;
    }
    Ok(())
}

#[test]
fn tells_which_budget_was_spent(rt: HostRuntime) -> Result<(), Fail> {
    run_budgets(rt.alloc(), &BUDGETS)
}
