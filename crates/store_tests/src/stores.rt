//! Additions to a store, and looks into it.
ghost use Rattle.std.specs.Prelude.{◌≡◌, ◌≤◌, length, IfOk};
ghost use Rattle.asp_store.specs.Stores.{most_cells};
ghost use Rattle.store_tests.specs.Games.{two_choices};

use crate::entries::entry;
use crate::games::two_choices;
use crate::named::Named;
use crate::rows::expect;
use asp_bits::Bits;
use asp_defs::{Kind, NoMemory};
use asp_store::{AddFault, Added, Store};
use std::alloc::Global;
use std::sync::Arc;
use std::test::Fail;

/// What an addition is to answer.
#[derive(Clone, Copy)]
pub enum Answer {
    Known(u32),
    New(u32),
    /// Spent, with so many cells allowed.
    Spent(u64),
}

/// Whether an answer is the one that is wanted of an entry of level 2.
pub fn is_answer(answer: Result<Added, AddFault>, wanted: Answer) -> bool {
    match (answer, wanted) {
        (Ok(Added::Known(at)), Answer::Known(wanted)) => at == wanted,
        (Ok(Added::New(at)), Answer::New(wanted)) => at == wanted,
        (Err(AddFault::Spent(unknown)), Answer::Spent(cells)) => {
            unknown.kind == Kind::Store && unknown.level == 2 && unknown.budget == cells
        }
        _ => false,
    }
}

/// Whether a and b are in the interpretation, and the position that is to be answered.
pub type Sought = (bool, bool, Option<u32>);

/// Additions one after another to the store of a game of two choices, and looks after them.
pub struct Row {
    pub name: &'static str,
    pub cells: u64,
    pub adds: &'static [(Named, Answer)],
    /// The level at which is looked.
    pub level: u32,
    pub sought: &'static [Sought],
}

/// The rows, for a store and for a shelf.
pub const ROWS: [Row; 12] = [
    Row {
        name: "nothing was added",
        cells: 10,
        adds: &[],
        level: 2,
        sought: &[(false, false, None), (true, true, None)],
    },
    Row {
        name: "an entry holds what its cube does, and not its seed alone",
        cells: 10,
        adds: &[(Named::WithoutA, Answer::New(0))],
        level: 2,
        sought: &[
            (false, false, Some(0)),
            (false, true, Some(0)),
            (true, false, None),
            (true, true, None),
        ],
    },
    Row {
        name: "no entry is of level 0",
        cells: 10,
        adds: &[(Named::WithoutA, Answer::New(0))],
        level: 0,
        sought: &[(false, false, None)],
    },
    Row {
        name: "an entry of level 2 is none of level 1",
        cells: 10,
        adds: &[(Named::WithoutA, Answer::New(0))],
        level: 1,
        sought: &[(false, false, None)],
    },
    Row {
        name: "no level is past the last",
        cells: 10,
        adds: &[(Named::WithoutA, Answer::New(0))],
        level: 3,
        sought: &[(false, false, None)],
    },
    Row {
        name: "nor is the greatest number one",
        cells: 10,
        adds: &[(Named::WithoutA, Answer::New(0))],
        level: 4_294_967_295,
        sought: &[(false, false, None)],
    },
    Row {
        name: "the same entry again is known",
        cells: 10,
        adds: &[
            (Named::WithoutA, Answer::New(0)),
            (Named::WithoutA, Answer::Known(0)),
        ],
        level: 2,
        sought: &[(true, false, None)],
    },
    Row {
        name: "another entry with a seed that is held is known, and isn't added",
        cells: 10,
        adds: &[
            (Named::WithoutA, Answer::New(0)),
            (Named::Neither, Answer::Known(0)),
            (Named::OnlyB, Answer::Known(0)),
            (Named::WithoutB, Answer::New(1)),
        ],
        level: 2,
        sought: &[(true, false, Some(1))],
    },
    Row {
        name: "the first of two entries that hold it",
        cells: 20,
        adds: &[
            (Named::WithoutB, Answer::New(0)),
            (Named::OnlyB, Answer::New(1)),
            (Named::Both, Answer::New(2)),
        ],
        level: 2,
        sought: &[
            (false, false, Some(0)),
            (true, false, Some(0)),
            (false, true, Some(1)),
            (true, true, Some(2)),
        ],
    },
    Row {
        name: "no cells",
        cells: 0,
        adds: &[(Named::WithoutA, Answer::Spent(0))],
        level: 2,
        sought: &[(false, false, None)],
    },
    Row {
        name: "one cell below enough, and then a cheaper entry",
        cells: 6,
        adds: &[
            (Named::WithoutA, Answer::New(0)),
            (Named::Both, Answer::Spent(6)),
            (Named::WithoutB, Answer::New(1)),
            (Named::Both, Answer::Spent(6)),
        ],
        level: 2,
        sought: &[(true, false, Some(1)), (true, true, None)],
    },
    Row {
        name: "just enough cells, and what is known costs none",
        cells: 7,
        adds: &[
            (Named::WithoutA, Answer::New(0)),
            (Named::Both, Answer::New(1)),
            (Named::Both, Answer::Known(1)),
            (Named::OnlyB, Answer::Known(0)),
            (Named::WithoutB, Answer::Spent(7)),
        ],
        level: 2,
        sought: &[(true, true, Some(1)), (true, false, None)],
    },
];

/// The interpretation of two atoms.
pub fn set_of(alloc: Global, a: bool, b: bool) -> Result<Bits, NoMemory>
    ensures { IfOk result (λ set. length set ≡ 2) }
{
    let mut set = Bits::new(alloc, 2)?;
    set.set(0, a);
    set.set(1, b);
    Ok(set)
}

/// The empty store of two choices.
pub fn empty_store(alloc: Global, cells: u64) -> Result<Store, NoMemory>
    requires { cells ≤ most_cells }
    ensures { IfOk result (λ store. store.game ≡ two_choices) }
{
    let game = Arc::new(alloc, two_choices(alloc)?)?;
    Store::new(alloc, game, cells)
}

fn add_is_right(alloc: Global, store: &mut Store, named: Named, wanted: Answer) -> bool
    requires { store.old.game ≡ two_choices }
    ensures { store.new.game ≡ two_choices }
{
    let Ok(entry) = entry(alloc, named) else {
        return false;
    };
    let answer = store.add(alloc, entry);
    is_answer(answer, wanted)
}

fn adds_are_right(alloc: Global, store: &mut Store, adds: &[(Named, Answer)]) -> bool
    requires { store.old.game ≡ two_choices }
    ensures { store.new.game ≡ two_choices }
{
    for (named, wanted) in adds {
        if !add_is_right(alloc, store, *named, *wanted) {
            return false;
        }
    }
    true
}

fn look_is_right(alloc: Global, store: &Store, level: u32, sought: Sought) -> bool
    requires { store.now.game ≡ two_choices }
{
    let (a, b, at) = sought;
    let Ok(set) = set_of(alloc, a, b) else {
        return false;
    };
    store.look(level, &set) == at
}

fn looks_are_right(alloc: Global, store: &Store, level: u32, sought: &[Sought]) -> bool
    requires { store.now.game ≡ two_choices }
{
    for one in sought {
        if !look_is_right(alloc, store, level, *one) {
            return false;
        }
    }
    true
}

fn is_right(alloc: Global, row: &Row) -> bool {
    let Ok(mut store) = empty_store(alloc, row.cells.min(500_000_000)) else {
        return false;
    };
    adds_are_right(alloc, &mut store, row.adds)
        && looks_are_right(alloc, &store, row.level, row.sought)
}

fn are_right(alloc: Global, rows: &[Row]) -> Result<(), Fail> {
    for row in rows {
        expect(is_right(alloc, row), row.name)?;
    }
    Ok(())
}

#[test]
fn stores_answer_as_they_are_to(rt: HostRuntime) -> Result<(), Fail> {
    are_right(rt.alloc(), &ROWS)
}
