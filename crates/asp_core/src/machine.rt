//! The machine.
ghost use Rattle.std.specs.Prelude.{◌≡◌, ◌<◌, ◌≤◌, ◌^◌, ◌-◌, false, length, IsTrue, Err, IfOk, OnOk, OnErr};
ghost use Rattle.std.specs.List.{list_all};
ghost use Rattle.asp_defs.specs.declared.faults.Unknown.{Unknown};
ghost use Rattle.asp_defs.specs.Games.{IsValid};
ghost use Rattle.asp_defs.specs.History.{is_sound};
ghost use Rattle.asp_defs.specs.Machine.{Look as Looks, Add as Adds, Fork as Forks, End as Ends, start, member as member_of, may_happen};
ghost use Rattle.asp_defs.specs.Laws.{IsOrderly, IsLater};
ghost use Rattle.asp_store.specs.declared.added.AddFault.TheVariants as faults;
ghost use Rattle.asp_store.specs.Stores.{most_cells};
ghost use Rattle.asp_core.specs.Machines.{IsKept, after, is_full, IsRefused};
ghost use Rattle.asp_core.specs.Events.{event_of};

use crate::event::Event;
use crate::members::{Member, end, fork, one_member, see, seen_by};
use asp_defs::{Game, NoMemory};
use asp_entry::Entry;
use asp_store::{AddFault, Store};
use std::alloc::Global;
use std::marker::Model;
use std::sync::Arc;

/// A history of a game, and members that have each seen a prefix of it.
///
/// Contracts see it as its game, the cells that its entries may take, and the state of the core machine.
#[derive(Drop)]
pub struct Machine {
    store: Store,
    members: Vec<Member>,
}

impl Model for Machine {
    ghost use Rattle.asp_core.specs.Machines.{MachineState, IsReached, machine_of};

    ghost Value = { MachineState };

    ghost view = { λ m. machine_of m.store m.members.items };

    ghost invariant = { λ m. IsReached (machine_of m.store m.members.items) };
}

impl Machine {
    /// The start: the empty history of a game, whose entries may take so many cells, and member 0, which lives and has seen
    /// nothing. `NoMemory`: memory was refused.
    pub fn new(alloc: Global, game: Arc<Game>, cells: u64) -> Result<Machine, NoMemory>
        requires valid { IsValid game.value }
        requires limit { cells ≤ most_cells }
        ensures { IfOk result (λ machine. machine ≡ record { game = game.value; allowed = cells; state = start }) }
    {
        let store = Store::new(alloc, game, cells)?;
        let members = one_member(alloc)?;
        Ok(Machine { store, members })
    }

    /// Does an event that may happen: its member lives, and an added entry is formed and justified by what the member has seen.
    /// `Spent`: no entry of the added one's level holds its seed, and the cells don't suffice. `NoMemory`: memory was refused.
    /// After both nothing has changed, and the entry is given up.
    pub fn step(&mut self, alloc: Global, event: Event) -> Result<(), AddFault>
        requires may { IsTrue (may_happen self.old.game self.old.state (event_of event)) }
        requires few { length self.old.state.members < 2 ^ 32 - 1 }
        ensures done { OnOk result (self.new ≡ after self.old (event_of event)) }
        ensures fits { OnOk result (is_full self.old (event_of event) ≡ false) }
        ensures spent { (u : Unknown) → result ≡ Err (faults.Spent u) → IsRefused self.old (event_of event) u }
        ensures unchanged { OnErr result (self.new ≡ self.old) }
        ensures orderly { IsOrderly self.new.game self.new.allowed self.new.state }
        ensures sound { IsTrue (list_all (is_sound self.new.game) self.new.state.history) }
        ensures later { IsLater self.old.state self.new.state }
        ensures game { self.new.game ≡ self.old.game }
        ensures allowed { self.new.allowed ≡ self.old.allowed }
    {
        match event {
            Event::Look(member) => {
                self.look(member);
                Ok(())
            }
            Event::Add(member, entry) => self.add(alloc, member, entry),
            Event::Fork(member) => {
                self.fork(member)?;
                Ok(())
            }
            Event::End(member) => {
                self.end(member);
                Ok(())
            }
        }
    }

    /// How long a prefix of the history a member has seen.
    pub fn seen(&self, member: u32) -> u32
        requires { member < length self.now.state.members }
        ensures seen { result ≡ (member_of self.now.state member).seen }
        ensures orderly { IsOrderly self.now.game self.now.allowed self.now.state }
        ensures sound { IsTrue (list_all (is_sound self.now.game) self.now.state.history) }
    {
        seen_by(&self.members, member)
    }

    fn look(&mut self, member: u32)
        requires { IsTrue (may_happen self.old.game self.old.state (Looks member)) }
        ensures done { self.new ≡ after self.old (Looks member) }
        ensures kept { IsKept self.old self.new }
    {
        let seen = self.store.len();
        see(&mut self.members, member, seen);
    }

    fn add(&mut self, alloc: Global, member: u32, entry: Entry) -> Result<(), AddFault>
        requires { IsTrue (may_happen self.old.game self.old.state (Adds member entry)) }
        ensures done { OnOk result (self.new ≡ after self.old (Adds member entry)) }
        ensures fits { OnOk result (is_full self.old (Adds member entry) ≡ false) }
        ensures spent { (u : Unknown) → result ≡ Err (faults.Spent u) → IsRefused self.old (Adds member entry) u }
        ensures unchanged { OnErr result (self.new ≡ self.old) }
        ensures kept { IsKept self.old self.new }
    {
        let _added = self.store.add(alloc, entry)?;
        let all = self.store.len();
        see(&mut self.members, member, all);
        Ok(())
    }

    fn fork(&mut self, member: u32) -> Result<(), NoMemory>
        requires { IsTrue (may_happen self.old.game self.old.state (Forks member)) }
        ensures done { OnOk result (self.new ≡ after self.old (Forks member)) }
        ensures unchanged { OnErr result (self.new ≡ self.old) }
        ensures kept { IsKept self.old self.new }
    {
        fork(&mut self.members, member)
    }

    fn end(&mut self, member: u32)
        requires { IsTrue (may_happen self.old.game self.old.state (Ends member)) }
        ensures done { self.new ≡ after self.old (Ends member) }
        ensures kept { IsKept self.old self.new }
    {
        end(&mut self.members, member);
    }
}
