//! Rules that wait until the atoms of their positive bodies are founded. Contracts say nothing of the order in which they come: what
//! a rule does is looked at when its turn comes.
ghost use Rattle.std.specs.Prelude.{◌≡◌, IsTrue, length};
ghost use Rattle.std.specs.List.{list_all};
ghost use Rattle.asp_reduct.specs.Bounds.{are_below, is_rule_below};

use crate::heads::left_head;
use crate::links::Links;
use asp_bits::Bits;
use asp_defs::{GroundRule, NoMemory};
use std::alloc::Global;

/// The rules that could found an atom, until their turn comes.
#[derive(Drop)]
pub struct Waiting {
    // For each rule how many atoms of its positive body are left.
    missing: Vec<u32>,
    // The rules that wait for an atom.
    users: Links,
    // The rules that miss none.
    ready: Vec<usize>,
}

impl Waiting {
    /// The rules that could found an atom that is left. `NoMemory`: memory was refused.
    pub fn new(
        alloc: Global,
        rules: &[GroundRule],
        set: &Bits,
        left: &Bits,
    ) -> Result<Waiting, NoMemory>
        requires below { IsTrue (list_all (is_rule_below (length set.now)) rules.now) }
        requires left { length left.now ≡ length set.now }
    {
        let mut waiting = Waiting {
            missing: Vec::new(alloc),
            users: Links::new(alloc, left.len())?,
            ready: Vec::new(alloc),
        };
        waiting.count_rules(rules, set, left)?;
        waiting.users.make_room(alloc)?;
        waiting.list_rules(rules, left);
        Ok(waiting)
    }

    /// Counts what a rule waits for among the atoms.
    fn count_uses(&mut self, atoms: &[u32], left: &Bits) -> u32
        requires { IsTrue (are_below (length left.now) atoms.now) }
    {
        let mut missing = 0u32;
        for atom in atoms {
            if left.get(*atom) {
                self.users.count(*atom);
                missing = missing.saturating_add(1);
            }
        }
        missing
    }

    /// Counts what a rule waits for. `NoMemory`: memory was refused.
    fn count_rule(&mut self, rule: &GroundRule, set: &Bits, left: &Bits) -> Result<(), NoMemory>
        requires below { IsTrue (is_rule_below (length set.now) rule.now) }
        requires left { length left.now ≡ length set.now }
    {
        let place = self.missing.len();
        if left_head(rule, set, left).is_none() {
            self.missing.push(0)?;
            return Ok(());
        }
        let missing = self.count_uses(rule.pos.as_slice(), left);
        self.missing.push(missing)?;
        if missing == 0 {
            self.ready.push(place)?;
        }
        Ok(())
    }

    /// Counts what the rules wait for. `NoMemory`: memory was refused.
    fn count_rules(&mut self, rules: &[GroundRule], set: &Bits, left: &Bits) -> Result<(), NoMemory>
        requires below { IsTrue (list_all (is_rule_below (length set.now)) rules.now) }
        requires left { length left.now ≡ length set.now }
    {
        for rule in rules {
            self.count_rule(rule, set, left)?;
        }
        Ok(())
    }

    /// Lists a rule under each of the atoms that is left.
    fn list_uses(&mut self, place: usize, atoms: &[u32], left: &Bits)
        requires { IsTrue (are_below (length left.now) atoms.now) }
    {
        for atom in atoms {
            if left.get(*atom) {
                self.users.add(*atom, place);
            }
        }
    }

    /// Whether the rule waits for an atom.
    fn waits(&self, place: usize) -> bool {
        match self.missing.get(place) {
            Some(missing) => *missing > 0,
            None => false,
        }
    }

    /// Lists the rules that wait under the atoms that they wait for.
    fn list_rules(&mut self, rules: &[GroundRule], left: &Bits)
        requires { IsTrue (list_all (is_rule_below (length left.now)) rules.now) }
    {
        let mut place = 0usize;
        for rule in rules {
            if self.waits(place) {
                self.list_uses(place, rule.pos.as_slice(), left);
            }
            place = place.saturating_add(1);
        }
    }

    /// The place of a rule that misses no atom; none where no such rule is left.
    pub fn next(&mut self) -> Option<usize> {
        self.ready.pop()
    }

    /// Notes that a rule misses an atom less. `NoMemory`: memory was refused.
    fn note_founded(&mut self, place: usize) -> Result<(), NoMemory> {
        let Some(missing) = self.missing.get_mut(place) else {
            return Ok(());
        };
        *missing = missing.saturating_sub(1);
        if *missing == 0 {
            self.ready.push(place)?;
        }
        Ok(())
    }

    /// Notes that an atom is founded. `NoMemory`: memory was refused.
    pub fn release(&mut self, atom: u32) -> Result<(), NoMemory> {
        let (start, end) = self.users.range(atom);
        for at in start..end {
            if let Some(place) = self.users.number(at) {
                self.note_founded(place)?;
            }
        }
        Ok(())
    }
}
