//! Cubes that are kept: the moves outside of them and the cores, where they are kept before the first question and behind one.

use crate::letters::{letters, region, sets};
use crate::wanted::is_listed;
use asked_moves::asked::{all_moves, ask, keep, put};
use asked_moves::questions::{base, literals};
use asked_moves::trials::{Trial, try_text};
use asp_answers::Answers;
use asp_defs::{Game, Lit};
use asp_game::{Moves, Step};
use bases_tests::rows::expect;
use std::alloc::Global;
use std::test::Fail;

/// A text, a level, the kept cube's true and false atoms, an outer move, the moves, and the atoms that the core has as true and as
/// false. The empty set is written `-`.
type Kept = (
    &'static str,
    u32,
    &'static str,
    &'static str,
    &'static str,
    &'static str,
    &'static str,
    &'static str,
);

const TWO: &str = "%@exists {a}. {b}.";

const OUTER: &str = "%@exists {a}. %@exists {b}.";

const KEPT: [Kept; 10] = [
    (TWO, 1, "a", "", "", "-,b", "", ""),
    (TWO, 1, "a", "b", "", "-,ab,b", "", ""),
    // An empty cube leaves nothing, whatever the outer move.
    (TWO, 1, "", "", "", "", "", ""),
    (OUTER, 2, "", "", "", "", "", ""),
    (OUTER, 2, "", "", "a", "", "", ""),
    // The core names the outer atoms of the cube.
    (OUTER, 2, "a", "", "a", "", "a", ""),
    (OUTER, 2, "", "a", "", "", "", "a"),
    (OUTER, 2, "a", "", "", "-,b", "", "a"),
    // A cube of an outer atom and one of the level's own.
    (OUTER, 2, "ab", "", "a", "a", "a", ""),
    (OUTER, 2, "ab", "", "", "-,b", "", "a"),
];

/// A cube that is kept before the first question or behind it, and the moves and the core that are wanted of two further ones.
#[derive(Drop)]
struct Keeping {
    outer: u32,
    cube: Vec<Lit>,
    late: bool,
    moves: Vec<u32>,
    core: (u32, u32),
}

impl Trial for Keeping {
    fn run(
        &mut self,
        alloc: Global,
        answers: &mut Answers,
        game: &Game,
        level: u32,
    ) -> Option<bool> {
        let moves = self.moves.as_slice();
        if self.late {
            ask(alloc, answers, game, level, self.outer, &[])?;
        }
        keep(alloc, answers, game, level, self.cube.as_slice())?;
        let first = is_listed(
            alloc,
            answers,
            game,
            level,
            self.outer,
            &[],
            moves,
            self.core,
        )?;
        let second = is_listed(
            alloc,
            answers,
            game,
            level,
            self.outer,
            &[],
            moves,
            self.core,
        )?;
        Some(first && second)
    }
}

/// Whether both questions of a row have its answer.
fn is_right(alloc: Global, row: &Kept, late: bool) -> Option<bool> {
    let (text, level, held, out, outer, moves, core_held, core_out) = *row;
    let cube = region(alloc, held, out).ok()?;
    let moves = sets(alloc, moves).ok()?;
    let mut keeping = Keeping {
        outer: letters(outer),
        cube,
        late,
        moves,
        core: (letters(core_held), letters(core_out)),
    };
    try_text(alloc, text, level, 1000, &mut keeping)
}

fn run_rows(alloc: Global, rows: &[Kept], late: bool) -> Result<(), Fail> {
    for row in rows {
        expect(is_right(alloc, row, late) == Some(true), row.0)?;
    }
    Ok(())
}

#[test]
fn a_cube_kept_first_stays_left_out(rt: HostRuntime) -> Result<(), Fail> {
    run_rows(rt.alloc(), &KEPT, false)
}

/// What was blocked in the question before is found again, but for the moves in the cube.
#[test]
fn a_cube_kept_between_questions_stays_left_out(rt: HostRuntime) -> Result<(), Fail> {
    run_rows(rt.alloc(), &KEPT, true)
}

/// A move that is kept as soon as it is found is left out of the question and of the next one.
#[derive(Drop)]
struct KeptWhenFound;

impl Trial for KeptWhenFound {
    fn run(
        &mut self,
        alloc: Global,
        answers: &mut Answers,
        game: &Game,
        level: u32,
    ) -> Option<bool> {
        put(alloc, answers, game, level, 0, &[])?;
        let Ok(Step::Found(set)) = answers.next(alloc) else {
            return None;
        };
        let cube = literals(alloc, base(game, level), &set).ok()?;
        keep(alloc, answers, game, level, cube.as_slice())?;
        let rest = all_moves(alloc, answers, base(game, level))?;
        let again = ask(alloc, answers, game, level, 0, &[])?;
        Some(rest.moves.len() == 3 && again.moves.as_slice() == rest.moves.as_slice())
    }
}

#[test]
fn a_move_may_be_kept_when_found(rt: HostRuntime) -> Result<(), Fail> {
    expect(
        try_text(rt.alloc(), TWO, 1, 1000, &mut KeptWhenFound) == Some(true),
        TWO,
    )
}
