//! The same additions and looks, by the shelf of one worker.
ghost use Rattle.std.specs.Prelude.{◌≡◌, ◌<◌, length, IfOk};
ghost use Rattle.store_tests.specs.Games.{two_choices};

use crate::entries::entry;
use crate::named::Named;
use crate::rows::expect;
use crate::stores::{Answer, ROWS, Row, Sought, empty_store, is_answer, set_of};
use asp_store::{Added, Look, Own, Shelf};
use std::alloc::Global;
use std::test::Fail;

fn add_is_right(alloc: Global, own: &mut Own, named: Named, wanted: Answer) -> bool
    requires { own.old.game ≡ two_choices }
    ensures { own.new.game ≡ two_choices }
{
    let Ok(entry) = entry(alloc, named) else {
        return false;
    };
    let answer = own.add(alloc, entry);
    is_answer(answer, wanted)
}

fn adds_are_right(alloc: Global, own: &mut Own, adds: &[(Named, Answer)]) -> bool
    requires { own.old.game ≡ two_choices }
    ensures { own.new.game ≡ two_choices }
{
    for (named, wanted) in adds {
        if !add_is_right(alloc, own, *named, *wanted) {
            return false;
        }
    }
    true
}

/// Whether a look that doesn't wait answers the position.
fn is_found(look: Look, at: Option<u32>) -> bool {
    match (look, at) {
        (Look::Entry(found), Some(at)) => found == at,
        (Look::Absent, None) => true,
        _ => false,
    }
}

/// Whether both looks are right.
fn look_is_right(alloc: Global, own: &mut Own, level: u32, sought: Sought) -> bool
    requires { own.old.game ≡ two_choices }
    ensures { own.new.game ≡ two_choices }
{
    let (a, b, at) = sought;
    let Ok(set) = set_of(alloc, a, b) else {
        return false;
    };
    let found = own.look(level, &set);
    let look = own.try_look(level, &set);
    found == at && is_found(look, at)
}

fn looks_are_right(alloc: Global, own: &mut Own, level: u32, sought: &[Sought]) -> bool
    requires { own.old.game ≡ two_choices }
    ensures { own.new.game ≡ two_choices }
{
    for one in sought {
        if !look_is_right(alloc, own, level, *one) {
            return false;
        }
    }
    true
}

fn is_right(alloc: Global, row: &Row) -> bool {
    let Ok(store) = empty_store(alloc, row.cells.min(500_000_000)) else {
        return false;
    };
    let mut own = Own::new(store);
    adds_are_right(alloc, &mut own, row.adds)
        && looks_are_right(alloc, &mut own, row.level, row.sought)
}

fn are_right(alloc: Global, rows: &[Row]) -> Result<(), Fail> {
    for row in rows {
        expect(is_right(alloc, row), row.name)?;
    }
    Ok(())
}

#[test]
fn shelves_answer_as_stores_do(rt: HostRuntime) -> Result<(), Fail> {
    are_right(rt.alloc(), &ROWS)
}

/// Whether the copy of an entry that was added is the entry.
fn copy_is_right(alloc: Global, own: &mut Own, named: Named) -> bool
    requires { own.old.game ≡ two_choices }
{
    let (Ok(entry), Ok(same)) = (entry(alloc, named), entry(alloc, named)) else {
        return false;
    };
    let Ok(Added::New(at)) = own.add(alloc, entry) else {
        return false;
    };
    let Ok(copy) = own.copy(alloc, at) else {
        return false;
    };
    copy.level == same.level
        && copy.verdict == same.verdict
        && copy.seed.as_slice() == same.seed.as_slice()
        && copy.cube.lits() == same.cube.lits()
}

const NAMED: [Named; 5] = [
    Named::WithoutA,
    Named::WithoutB,
    Named::Neither,
    Named::OnlyB,
    Named::Both,
];

/// Whether each entry, added to an empty shelf, is copied as it is.
fn copies_are_right(alloc: Global, all: &[Named]) -> bool {
    for named in all {
        let Ok(store) = empty_store(alloc, 9) else {
            return false;
        };
        if !copy_is_right(alloc, &mut Own::new(store), *named) {
            return false;
        }
    }
    true
}

#[test]
fn copies_are_as_the_entries(rt: HostRuntime) -> Result<(), Fail> {
    expect(copies_are_right(rt.alloc(), &NAMED), "copies of entries")
}
