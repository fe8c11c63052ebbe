//! Rules that wait until the own atoms of their positive bodies are founded. Contracts say nothing of the order in which they
//! come: what a rule does is looked at when its turn comes.
ghost use Rattle.std.specs.Prelude.{◌≡◌, ◌<◌, IsTrue, length};
ghost use Rattle.std.specs.List.{list_all};
ghost use Rattle.asp_reduct.specs.Bounds.{are_below, is_rule_below};

use asp_bits::Bits;
use asp_defs::{GroundRule, NoMemory};
use asp_reduct::body_true;
use std::alloc::Global;
use std::cmp::Reverse;
use std::collections::BinaryHeap;

/// A rule that waits for an atom.
#[derive(Clone, Copy)]
struct Link {
    rule: usize,
    // The atom's next link, counted from 1, or 0.
    next: usize,
}

/// The rules with true bodies, until their turn comes.
#[derive(Drop)]
pub struct Waiting {
    // For each rule how many own atoms of its positive body aren't founded.
    missing: Vec<u32>,
    // For each atom the first of its links, counted from 1, or 0.
    first: Vec<usize>,
    links: Vec<Link>,
    // The rules that miss none, by how many unmarked outer atoms they had.
    ready: BinaryHeap<Reverse<(u32, usize)>>,
}

/// How many of the atoms are outer ones without a mark.
fn unmarked(atoms: &[u32], outer: &Bits, marks: &Bits) -> u32
    requires below { IsTrue (are_below (length outer.now) atoms.now) }
    requires marks { length marks.now ≡ length outer.now }
{
    let mut count = 0u32;
    for atom in atoms {
        if outer.get(*atom) && !marks.get(*atom) {
            count = count.saturating_add(1);
        }
    }
    count
}

/// How many outer atoms without a mark the rule has.
fn cost(rule: &GroundRule, outer: &Bits, marks: &Bits) -> u32
    requires below { IsTrue (is_rule_below (length outer.now) rule.now) }
    requires marks { length marks.now ≡ length outer.now }
{
    let head = unmarked(rule.head.as_slice(), outer, marks);
    let pos = unmarked(rule.pos.as_slice(), outer, marks);
    let neg = unmarked(rule.neg.as_slice(), outer, marks);
    head.saturating_add(pos).saturating_add(neg)
}

impl Waiting {
    /// No rules, over so many atoms. `NoMemory`: memory was refused.
    pub fn new(alloc: Global, count: u32) -> Result<Waiting, NoMemory> {
        Ok(Waiting {
            missing: Vec::new(alloc),
            first: Vec::from_elem(alloc, 0usize, count as usize)?,
            links: Vec::new(alloc),
            ready: BinaryHeap::new(alloc),
        })
    }

    /// Lets a rule wait for an atom. `NoMemory`: memory was refused.
    fn link(&mut self, rule: usize, atom: u32) -> Result<(), NoMemory> {
        let place = self.links.len().saturating_add(1);
        let Some(first) = self.first.get_mut(atom as usize) else {
            return Ok(());
        };
        let next = *first;
        *first = place;
        self.links.push(Link { rule, next })?;
        Ok(())
    }

    /// Lets a rule wait for the own atoms among some. `NoMemory`: memory was refused.
    fn link_own(&mut self, rule: usize, atoms: &[u32], outer: &Bits) -> Result<u32, NoMemory>
        requires { IsTrue (are_below (length outer.now) atoms.now) }
    {
        let mut missing = 0u32;
        for atom in atoms {
            if !outer.get(*atom) {
                self.link(rule, *atom)?;
                missing = missing.saturating_add(1);
            }
        }
        Ok(missing)
    }

    /// Adds a rule. `NoMemory`: memory was refused.
    fn add_rule(
        &mut self,
        rule: &GroundRule,
        set: &Bits,
        outer: &Bits,
        marks: &Bits,
    ) -> Result<(), NoMemory>
        requires below { IsTrue (is_rule_below (length outer.now) rule.now) }
        requires set { length set.now ≡ length outer.now }
        requires marks { length marks.now ≡ length outer.now }
    {
        let place = self.missing.len();
        if !body_true(rule, set) {
            self.missing.push(0)?;
            return Ok(());
        }
        let missing = self.link_own(place, rule.pos.as_slice(), outer)?;
        self.missing.push(missing)?;
        if missing == 0 {
            self.ready.push(Reverse((cost(rule, outer, marks), place)))?;
        }
        Ok(())
    }

    /// Adds rules. `NoMemory`: memory was refused.
    pub fn add_rules(
        &mut self,
        rules: &[GroundRule],
        set: &Bits,
        outer: &Bits,
        marks: &Bits,
    ) -> Result<(), NoMemory>
        requires below { IsTrue (list_all (is_rule_below (length outer.now)) rules.now) }
        requires set { length set.now ≡ length outer.now }
        requires marks { length marks.now ≡ length outer.now }
    {
        for rule in rules {
            self.add_rule(rule, set, outer, marks)?;
        }
        Ok(())
    }

    /// The place of a rule that misses no atom, one that had the fewest unmarked outer atoms when it became ready; none where no
    /// such rule is left.
    pub fn next(&mut self) -> Option<usize> {
        let Reverse((_, place)) = self.ready.pop()?;
        Some(place)
    }

    /// Notes that a rule misses an atom less. `NoMemory`: memory was refused.
    fn note_founded(
        &mut self,
        place: usize,
        rules: &[GroundRule],
        outer: &Bits,
        marks: &Bits,
    ) -> Result<(), NoMemory>
        requires below { IsTrue (list_all (is_rule_below (length outer.now)) rules.now) }
        requires marks { length marks.now ≡ length outer.now }
    {
        let Some(missing) = self.missing.get_mut(place) else {
            return Ok(());
        };
        *missing = missing.saturating_sub(1);
        if *missing == 0 && place < rules.len() {
            self.ready
                .push(Reverse((cost(&rules[place], outer, marks), place)))?;
        }
        Ok(())
    }

    /// Notes that an atom is founded. `NoMemory`: memory was refused.
    pub fn release(
        &mut self,
        atom: u32,
        rules: &[GroundRule],
        outer: &Bits,
        marks: &Bits,
    ) -> Result<(), NoMemory>
        requires below { IsTrue (list_all (is_rule_below (length outer.now)) rules.now) }
        requires marks { length marks.now ≡ length outer.now }
    {
        let mut at = match self.first.get(atom as usize) {
            Some(first) => *first,
            None => 0,
        };
        for _ in 0..self.links.len() {
            if at == 0 {
                return Ok(());
            }
            let Some(link) = self.links.get(at - 1) else {
                return Ok(());
            };
            let Link { rule, next } = *link;
            self.note_founded(rule, rules, outer, marks)?;
            at = next;
        }
        Ok(())
    }
}
