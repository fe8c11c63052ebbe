//! Events of a machine's members, and how much each has seen after them.
ghost use Rattle.std.specs.Prelude.{◌≡◌, ◌<◌, ◌≤◌, ◌∷◌, [], true, length, IsTrue, IfOk, IfSome};
ghost use Rattle.asp_store.specs.Stores.{most_cells};
ghost use Rattle.store_tests.specs.Members.{IsAlive, Knows, begun_machine};

use crate::entries::{all_true, entry};
use crate::games::{no_rules, two_choices};
use crate::named::Named;
use crate::rows::expect;
use asp_core::{Event, Machine};
use asp_defs::NoMemory;
use asp_store::AddFault;
use std::alloc::Global;
use std::sync::Arc;
use std::test::Fail;

/// An event of a member, by its number.
#[derive(Clone, Copy)]
enum Act {
    Look(u32),
    Add(u32, Named),
    /// An addition for which the cells don't suffice.
    Refused(u32, Named),
    Fork(u32),
    End(u32),
}

/// Events one after another in the game of two choices, and how much each member has seen after them.
struct Row {
    name: &'static str,
    cells: u64,
    acts: &'static [Act],
    seen: &'static [u32],
}

const ROWS: [Row; 8] = [
    Row {
        name: "the first member has seen nothing",
        cells: 9,
        acts: &[],
        seen: &[0],
    },
    Row {
        name: "who adds has seen its entry, and who forked before hasn't",
        cells: 9,
        acts: &[Act::Fork(0), Act::Add(0, Named::WithoutA)],
        seen: &[1, 0],
    },
    Row {
        name: "who forks later has seen as much",
        cells: 9,
        acts: &[
            Act::Add(0, Named::WithoutA),
            Act::Fork(0),
            Act::Add(0, Named::WithoutB),
        ],
        seen: &[2, 1],
    },
    Row {
        name: "a fork doesn't look",
        cells: 9,
        acts: &[Act::Fork(0), Act::Add(0, Named::WithoutA), Act::Fork(1)],
        seen: &[1, 0, 0],
    },
    Row {
        name: "a look shows all",
        cells: 9,
        acts: &[
            Act::Fork(0),
            Act::Add(0, Named::WithoutA),
            Act::Add(0, Named::WithoutB),
            Act::Look(1),
        ],
        seen: &[2, 2],
    },
    Row {
        name: "an addition that is known is a look",
        cells: 9,
        acts: &[
            Act::Fork(0),
            Act::Add(0, Named::WithoutA),
            Act::Add(0, Named::WithoutB),
            Act::Add(1, Named::Neither),
        ],
        seen: &[2, 2],
    },
    Row {
        name: "an addition that is refused isn't one, and what is known costs nothing",
        cells: 5,
        acts: &[
            Act::Fork(0),
            Act::Add(0, Named::WithoutA),
            Act::Refused(1, Named::Both),
            Act::Fork(1),
            Act::Add(2, Named::WithoutB),
            Act::Fork(2),
            Act::Refused(0, Named::Both),
            Act::Fork(0),
            Act::Add(0, Named::OnlyB),
        ],
        seen: &[2, 0, 2, 2, 1],
    },
    Row {
        name: "who ends has seen what it had, and the others go on",
        cells: 9,
        acts: &[
            Act::Fork(0),
            Act::Add(0, Named::WithoutA),
            Act::End(0),
            Act::Look(1),
            Act::Add(1, Named::Both),
        ],
        seen: &[1, 2],
    },
];

fn started(alloc: Global, cells: u64) -> Result<Machine, NoMemory>
    requires { cells ≤ most_cells }
    ensures { IfOk result (λ machine. Knows machine (true ∷ [])) }
{
    let game = Arc::new(alloc, two_choices(alloc)?)?;
    Machine::new(alloc, game, cells)
}

/// Whether a member lives, of not too many.
fn is_alive(lives: &[bool], member: u32) -> bool
    ensures { IsTrue result → IsAlive lives.now member }
{
    match lives.get(member as usize) {
        Some(alive) => *alive && lives.len() < 1_000,
        None => false,
    }
}

fn look(alloc: Global, machine: &mut Machine, lives: &[bool], member: u32) -> Option<()>
    requires { Knows machine.old lives.now }
    ensures { IfSome result (λ done. Knows machine.new lives.now) }
{
    if !is_alive(lives, member) {
        return None;
    }
    let Ok(()) = machine.step(alloc, Event::Look(member)) else {
        return None;
    };
    Some(())
}

fn add(
    alloc: Global,
    machine: &mut Machine,
    lives: &[bool],
    member: u32,
    named: Named,
) -> Option<()>
    requires { Knows machine.old lives.now }
    ensures { IfSome result (λ done. Knows machine.new lives.now) }
{
    if !is_alive(lives, member) {
        return None;
    }
    let Ok(entry) = entry(alloc, named) else {
        return None;
    };
    let Ok(()) = machine.step(alloc, Event::Add(member, entry)) else {
        return None;
    };
    Some(())
}

fn is_refused(
    alloc: Global,
    machine: &mut Machine,
    lives: &[bool],
    member: u32,
    named: Named,
) -> Option<()>
    requires { Knows machine.old lives.now }
    ensures { IfSome result (λ done. Knows machine.new lives.now) }
{
    if !is_alive(lives, member) {
        return None;
    }
    let Ok(entry) = entry(alloc, named) else {
        return None;
    };
    let Err(AddFault::Spent(_)) = machine.step(alloc, Event::Add(member, entry)) else {
        return None;
    };
    Some(())
}

fn fork(alloc: Global, machine: &mut Machine, lives: &mut Vec<bool>, member: u32) -> Option<()>
    requires { Knows machine.old lives.old.items }
    ensures { IfSome result (λ done. Knows machine.new lives.new.items) }
{
    if !is_alive(lives, member) {
        return None;
    }
    let Ok(()) = machine.step(alloc, Event::Fork(member)) else {
        return None;
    };
    let Ok(()) = lives.push(true) else {
        return None;
    };
    Some(())
}

fn end(alloc: Global, machine: &mut Machine, lives: &mut Vec<bool>, member: u32) -> Option<()>
    requires { Knows machine.old lives.old.items }
    ensures { IfSome result (λ done. Knows machine.new lives.new.items) }
{
    if !is_alive(lives, member) {
        return None;
    }
    let Ok(()) = machine.step(alloc, Event::End(member)) else {
        return None;
    };
    lives[member as usize] = false;
    Some(())
}

fn do_one(alloc: Global, machine: &mut Machine, lives: &mut Vec<bool>, act: Act) -> Option<()>
    requires { Knows machine.old lives.old.items }
    ensures { IfSome result (λ done. Knows machine.new lives.new.items) }
{
    match act {
        Act::Look(member) => look(alloc, machine, lives, member),
        Act::Add(member, named) => add(alloc, machine, lives, member, named),
        Act::Refused(member, named) => is_refused(alloc, machine, lives, member, named),
        Act::Fork(member) => fork(alloc, machine, lives, member),
        Act::End(member) => end(alloc, machine, lives, member),
    }
}

fn do_all(alloc: Global, machine: &mut Machine, lives: &mut Vec<bool>, acts: &[Act]) -> Option<()>
    requires { Knows machine.old lives.old.items }
    ensures { IfSome result (λ done. Knows machine.new lives.new.items) }
{
    for one in acts {
        do_one(alloc, machine, lives, *one)?;
    }
    Some(())
}

fn have_seen(machine: &Machine, seen: &[u32]) -> bool
    requires few { length seen.now < 1000 }
    requires inside { length seen.now ≤ length machine.now.state.members }
{
    for (member, wanted) in seen.iter().enumerate() {
        if machine.seen(member as u32) != *wanted {
            return false;
        }
    }
    true
}

fn is_right(alloc: Global, row: &Row) -> Option<bool> {
    let mut machine = started(alloc, row.cells.min(500_000_000)).ok()?;
    let mut lives = Vec::new(alloc);
    lives.push(true).ok()?;
    do_all(alloc, &mut machine, &mut lives, row.acts)?;
    if lives.len() != row.seen.len() || row.seen.len() >= 1_000 {
        return None;
    }
    Some(have_seen(&machine, row.seen))
}

fn are_right(alloc: Global, rows: &[Row]) -> Result<(), Fail> {
    for row in rows {
        expect(is_right(alloc, row) == Some(true), row.name)?;
    }
    Ok(())
}

#[test]
fn members_have_seen_what_they_are_to(rt: HostRuntime) -> Result<(), Fail> {
    are_right(rt.alloc(), &ROWS)
}

/// The start in the game without rules.
fn begun(alloc: Global) -> Result<Machine, NoMemory>
    ensures { IfOk result (λ machine. machine ≡ begun_machine) }
{
    let game = Arc::new(alloc, no_rules(alloc)?)?;
    Machine::new(alloc, game, 9)
}

/// After a fork of the first member it adds that the constraints of nothing are kept, and then that the game is true.
fn two_entries(alloc: Global) -> Option<bool> {
    let Ok(mut machine) = begun(alloc) else {
        return None;
    };
    let Ok(()) = machine.step(alloc, Event::Fork(0)) else {
        return None;
    };
    let Ok(()) = machine.step(alloc, Event::Add(0, all_true(alloc, 2))) else {
        return None;
    };
    let Ok(()) = machine.step(alloc, Event::Add(0, all_true(alloc, 1))) else {
        return None;
    };
    Some(machine.seen(0) == 2 && machine.seen(1) == 0)
}

#[test]
fn an_entry_rests_on_one_that_was_seen(rt: HostRuntime) -> Result<(), Fail> {
    expect(
        two_entries(rt.alloc()) == Some(true),
        "two entries, after a fork",
    )
}
