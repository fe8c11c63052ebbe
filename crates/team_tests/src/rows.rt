//! Questions to one worker one after another: on given outer moves of the first level, of later ones and behind the last one, some
//! of them put again, and some after a budget was spent.
//!
//! Where each level has one move after the outer move, the definitions give each position: the entry behind the last level comes
//! first, and that of the level that was asked last.
use crate::asked::{Question, Wanted, is_right, worker};
use asp_defs::Kind;
use bases_tests::rows::expect;
use std::alloc::Global;
use std::test::Fail;

/// A text, the placements and cells that are allowed, and questions one after another.
struct Row {
    name: &'static str,
    text: &'static str,
    budget: u64,
    cells: u64,
    questions: &'static [Question],
}

const ENOUGH: u64 = 1000;

/// Each level has one move, and the constraint is broken where both are made.
const BOTH_EXIST: &str = "%@exists a. %@exists b. %@constraint :- a, b.";

const FOR_ALL_BOTH: &str = "%@forall a. %@forall b. %@constraint :- a, b.";

/// A level without atoms, and one whose only candidate has to be checked.
const LOOP: &str =
    "%@exists %@exists a | b | c. a :- b. b :- c. c :- a. :- not a. :- not b. :- not c.";

/// Each of sixteen levels has one move, and the constraint is broken at last.
const SIXTEEN: &str =
    "%@exists a. %@exists b. %@exists c. %@exists d. %@exists e. %@exists f. %@exists g. %@exists h.
    %@exists i. %@exists j. %@exists k. %@exists l. %@exists m. %@exists n. %@exists o. %@exists p. %@constraint :- a, i, p.";

const DECIDED: [Row; 7] = [
    Row {
        name: "the first level, the same again, the next ones by what is known, and another outer move",
        text: BOTH_EXIST,
        budget: ENOUGH,
        cells: ENOUGH,
        questions: &[
            (1, "", Wanted::Entry(2, false), 3),
            (1, "", Wanted::Entry(2, false), 3),
            (2, "a", Wanted::Entry(1, false), 3),
            (3, "ab", Wanted::Entry(0, false), 3),
            (2, "", Wanted::Entry(4, true), 5),
            (2, "", Wanted::Entry(4, true), 5),
            (3, "b", Wanted::Entry(3, true), 5),
        ],
    },
    Row {
        name: "the same where all moves are to be good",
        text: FOR_ALL_BOTH,
        budget: ENOUGH,
        cells: ENOUGH,
        questions: &[
            (1, "", Wanted::Entry(2, false), 3),
            (2, "", Wanted::Entry(4, true), 5),
            (1, "", Wanted::Entry(2, false), 5),
        ],
    },
    Row {
        name: "the second level before the first",
        text: BOTH_EXIST,
        budget: ENOUGH,
        cells: ENOUGH,
        questions: &[
            (2, "a", Wanted::Entry(1, false), 2),
            (2, "a", Wanted::Entry(1, false), 2),
            (1, "", Wanted::Entry(2, false), 3),
        ],
    },
    Row {
        name: "behind the last level before the others",
        text: BOTH_EXIST,
        budget: ENOUGH,
        cells: ENOUGH,
        questions: &[
            (3, "ab", Wanted::Entry(0, false), 1),
            (3, "ab", Wanted::Entry(0, false), 1),
            (3, "a", Wanted::Entry(1, true), 2),
            (3, "b", Wanted::Entry(2, true), 3),
            (2, "a", Wanted::Entry(3, false), 4),
        ],
    },
    Row {
        name: "a level without a move is lost where one is to be good",
        text: "%@exists a. %@exists b :- not b.",
        budget: ENOUGH,
        cells: ENOUGH,
        questions: &[
            (2, "a", Wanted::Entry(0, false), 1),
            (1, "", Wanted::Entry(1, false), 2),
            (3, "a", Wanted::Entry(2, true), 3),
        ],
    },
    Row {
        name: "a level without a move is won where all are to be good",
        text: "%@exists a. %@forall b :- not b. %@constraint :- a.",
        budget: ENOUGH,
        cells: ENOUGH,
        questions: &[
            (2, "a", Wanted::Entry(0, true), 1),
            (1, "", Wanted::Entry(1, true), 2),
            (3, "a", Wanted::Entry(2, false), 3),
        ],
    },
    Row {
        name: "the last of sixteen levels, one of them, and the first",
        text: SIXTEEN,
        budget: ENOUGH,
        cells: ENOUGH,
        questions: &[
            (17, "abcdefghijklmnop", Wanted::Entry(0, false), 1),
            (16, "abcdefghijklmno", Wanted::Entry(1, false), 2),
            (9, "abcdefgh", Wanted::Entry(8, false), 9),
            (1, "", Wanted::Entry(16, false), 17),
            (10, "abcdefghi", Wanted::Entry(7, false), 17),
        ],
    },
];

const OPEN: [Row; 7] = [
    Row {
        name: "no entry fits, whichever level is asked",
        text: BOTH_EXIST,
        budget: ENOUGH,
        cells: 1,
        questions: &[
            (1, "", Wanted::Spent(Kind::Store, 3, 1), 0),
            (1, "", Wanted::Spent(Kind::Store, 3, 1), 0),
            (2, "a", Wanted::Spent(Kind::Store, 3, 1), 0),
            (3, "ab", Wanted::Spent(Kind::Store, 3, 1), 0),
        ],
    },
    // Over no atoms each entry takes one cell.
    Row {
        name: "no cells",
        text: "%@exists %@forall",
        budget: ENOUGH,
        cells: 0,
        questions: &[
            (1, "", Wanted::Spent(Kind::Store, 3, 0), 0),
            (3, "", Wanted::Spent(Kind::Store, 3, 0), 0),
        ],
    },
    Row {
        name: "the entry behind the last level fits alone",
        text: "%@exists %@forall",
        budget: ENOUGH,
        cells: 1,
        questions: &[
            (1, "", Wanted::Spent(Kind::Store, 2, 1), 1),
            (1, "", Wanted::Spent(Kind::Store, 2, 1), 1),
            (2, "", Wanted::Spent(Kind::Store, 2, 1), 1),
            (3, "", Wanted::Entry(0, true), 1),
        ],
    },
    Row {
        name: "all but the first level's entry fit",
        text: "%@exists %@forall",
        budget: ENOUGH,
        cells: 2,
        questions: &[
            (1, "", Wanted::Spent(Kind::Store, 1, 2), 2),
            (2, "", Wanted::Entry(1, true), 2),
            (1, "", Wanted::Spent(Kind::Store, 1, 2), 2),
        ],
    },
    Row {
        name: "all entries fit",
        text: "%@exists %@forall",
        budget: ENOUGH,
        cells: 3,
        questions: &[(1, "", Wanted::Entry(2, true), 3)],
    },
    // The second level has three atoms, so that a search for its moves places three literals.
    Row {
        name: "the second level's search is spent, and what asks no search is still answered",
        text: "%@exists a. %@exists {b}. {c}.",
        budget: 2,
        cells: ENOUGH,
        questions: &[
            (1, "", Wanted::Spent(Kind::Search, 2, 2), 0),
            (1, "", Wanted::Spent(Kind::Search, 2, 2), 0),
            (2, "a", Wanted::Spent(Kind::Search, 2, 2), 0),
            (3, "ab", Wanted::Entry(0, true), 1),
            (2, "a", Wanted::Spent(Kind::Search, 2, 2), 1),
        ],
    },
    Row {
        name: "the second level's check is spent",
        text: LOOP,
        budget: 3,
        cells: ENOUGH,
        questions: &[
            (2, "", Wanted::Spent(Kind::Minimal, 2, 3), 0),
            (1, "", Wanted::Spent(Kind::Minimal, 2, 3), 0),
            (3, "", Wanted::Entry(0, true), 1),
        ],
    },
];

fn are_right(alloc: Global, row: &Row) -> bool {
    let Some(mut team) = worker(alloc, row.text, row.budget, row.cells) else {
        return false;
    };
    for question in row.questions {
        if !is_right(alloc, &mut team, question) {
            return false;
        }
    }
    true
}

fn run_rows(alloc: Global, rows: &[Row]) -> Result<(), Fail> {
    for row in rows {
        expect(are_right(alloc, row), row.name)?;
    }
    Ok(())
}

#[test]
fn answers_each_level(rt: HostRuntime) -> Result<(), Fail> {
    run_rows(rt.alloc(), &DECIDED)
}

#[test]
fn stays_open_where_a_budget_is_spent(rt: HostRuntime) -> Result<(), Fail> {
    run_rows(rt.alloc(), &OPEN)
}
