//! How many nogoods are recorded.

use asked_moves::asked::ask;
use asked_moves::trials::{Trial, try_text};
use asp_answers::Answers;
use asp_defs::Game;
use bases_tests::rows::expect;
use std::alloc::Global;
use std::test::Fail;

/// Whether there are nogoods once all moves of a question were listed. No more come where it is put again and they are listed once
/// more.
#[derive(Drop)]
struct Recorded {
    some: bool,
}

impl Trial for Recorded {
    fn run(
        &mut self,
        alloc: Global,
        answers: &mut Answers,
        game: &Game,
        level: u32,
    ) -> Option<bool> {
        ask(alloc, answers, game, level, 0, &[])?;
        let first = answers.nogoods().len();
        ask(alloc, answers, game, level, 0, &[])?;
        Some((first != 0) == self.some && answers.nogoods().len() == first)
    }
}

fn records(alloc: Global, text: &str, some: bool) -> bool {
    try_text(alloc, text, 1, 1000, &mut Recorded { some }) == Some(true)
}

#[test]
fn records_each_nogood_once(rt: HostRuntime) -> Result<(), Fail> {
    let text = "%@exists a :- b. b :- a. a :- c. {c}.";
    expect(records(rt.alloc(), text, true), text)
}

/// Levels without loops whose clauses from the start leave no candidate but the moves: facts, atoms in no head, a single rule, two
/// rules, bodies that share a literal, three rules, a body that denies its own head, and one of two that does.
const COMPLETED: [&str; 8] = [
    "%@exists a. b. {c}.",
    "%@exists {a}. b :- c. d :- not e.",
    "%@exists {a}. {b}. c :- a, not b.",
    "%@exists {a}. {b}. {c}. {d}. e :- a, not b. e :- not c, d.",
    "%@exists {a}. {b}. {c}. d :- a, c. d :- b, c.",
    "%@exists {a}. {b}. {c}. d :- a, b. d :- a, c. d :- b, c.",
    "%@exists {a}. {b}. c :- a. c :- b, not c.",
    "%@exists {a}. b :- not a. b :- a, not b.",
];

fn run_completed(alloc: Global, texts: &[&str]) -> Result<(), Fail> {
    for text in texts {
        expect(records(alloc, *text, false), *text)?;
    }
    Ok(())
}

#[test]
fn needs_no_nogood_without_loops(rt: HostRuntime) -> Result<(), Fail> {
    run_completed(rt.alloc(), &COMPLETED)
}
