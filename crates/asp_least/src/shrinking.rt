//! A smaller part of what is left that no rule may support.
ghost use Rattle.std.specs.Prelude.{◌≡◌, ◌<◌, ◌≤◌, IsTrue, IfOk, OnOk, length};
ghost use Rattle.std.specs.List.{list_all};
ghost use Rattle.asp_reduct.specs.Bounds.{are_below, is_rule_below};
ghost use Rattle.asp_least.specs.Parts.{IsPartOf};

use crate::links::Links;
use asp_bits::Bits;
use asp_defs::{GroundRule, NoMemory};
use asp_reduct::{any_true, body_true, first_true};
use std::alloc::Global;

/// Counts a rule under each of its head atoms that is left.
fn count_heads(rules_of: &mut Links, head: &[u32], left: &Bits)
    requires { IsTrue (are_below (length left.now) head.now) }
{
    for atom in head {
        if left.get(*atom) {
            rules_of.count(*atom);
        }
    }
}

/// Lists a rule under each of its head atoms that is left.
fn list_heads(rules_of: &mut Links, place: usize, head: &[u32], left: &Bits)
    requires { IsTrue (are_below (length left.now) head.now) }
{
    for atom in head {
        if left.get(*atom) {
            rules_of.add(*atom, place);
        }
    }
}

fn count_all(rules_of: &mut Links, rules: &[GroundRule], left: &Bits)
    requires { IsTrue (list_all (is_rule_below (length left.now)) rules.now) }
{
    for rule in rules {
        count_heads(rules_of, rule.head.as_slice(), left);
    }
}

fn list_all_heads(rules_of: &mut Links, rules: &[GroundRule], left: &Bits)
    requires { IsTrue (list_all (is_rule_below (length left.now)) rules.now) }
{
    let mut place = 0usize;
    for rule in rules {
        list_heads(rules_of, place, rule.head.as_slice(), left);
        place = place.saturating_add(1);
    }
}

/// The places of the rules that have an atom that is left in their heads. `NoMemory`: memory was refused.
fn rules_by_head(alloc: Global, rules: &[GroundRule], left: &Bits) -> Result<Links, NoMemory>
    requires { IsTrue (list_all (is_rule_below (length left.now)) rules.now) }
{
    let mut rules_of = Links::new(alloc, left.len())?;
    count_all(&mut rules_of, rules, left);
    rules_of.make_room(alloc)?;
    list_all_heads(&mut rules_of, rules, left);
    Ok(rules_of)
}

/// Takes an atom into the part, where it is left and not in it. `NoMemory`: memory was refused.
fn take(small: &mut Bits, waiting: &mut Vec<u32>, left: &Bits, atom: u32) -> Result<(), NoMemory>
    requires below { atom < length left.now }
    requires part { IsPartOf left.now small.old }
    ensures { IsPartOf left.now small.new }
{
    if small.get(atom) || !left.get(atom) {
        return Ok(());
    }
    small.set(atom, true);
    waiting.push(atom)?;
    Ok(())
}

/// Takes an atom of the rule's positive body that is left, where the body is true and the part has none of it.
fn take_reason(
    small: &mut Bits,
    waiting: &mut Vec<u32>,
    rule: &GroundRule,
    set: &Bits,
    left: &Bits,
) -> Result<(), NoMemory>
    requires below { IsTrue (is_rule_below (length set.now) rule.now) }
    requires left { length left.now ≡ length set.now }
    requires part { IsPartOf left.now small.old }
    ensures { IsPartOf left.now small.new }
{
    if any_true(rule.pos.as_slice(), small) || !body_true(rule, set) {
        return Ok(());
    }
    match first_true(rule.pos.as_slice(), left) {
        Some(atom) => take(small, waiting, left, atom),
        None => Ok(()),
    }
}

/// Takes what keeps the rules with this head atom from supporting the part.
fn take_reasons(
    small: &mut Bits,
    waiting: &mut Vec<u32>,
    range: (usize, usize),
    rules_of: &Links,
    rules: &[GroundRule],
    set: &Bits,
    left: &Bits,
) -> Result<(), NoMemory>
    requires below { IsTrue (list_all (is_rule_below (length set.now)) rules.now) }
    requires left { length left.now ≡ length set.now }
    requires part { IsPartOf left.now small.old }
    ensures { IsPartOf left.now small.new }
{
    for at in range.0..range.1 {
        let Some(place) = rules_of.number(at) else {
            return Ok(());
        };
        if place < rules.len() {
            take_reason(small, waiting, &rules[place], set, left)?;
        }
    }
    Ok(())
}

/// Takes what keeps rules from supporting the part, until nothing is missing.
fn grow(
    small: &mut Bits,
    waiting: &mut Vec<u32>,
    rules_of: &Links,
    rules: &[GroundRule],
    set: &Bits,
    left: &Bits,
) -> Result<(), NoMemory>
    requires below { IsTrue (list_all (is_rule_below (length set.now)) rules.now) }
    requires left { length left.now ≡ length set.now }
    requires part { IsPartOf left.now small.old }
    ensures { IsPartOf left.now small.new }
{
    for _ in 0..left.len() {
        let Some(atom) = waiting.pop() else {
            return Ok(());
        };
        take_reasons(
            small,
            waiting,
            rules_of.range(atom),
            rules_of,
            rules,
            set,
            left,
        )?;
    }
    Ok(())
}

/// Atoms that are left, among them this one if it is left: of each rule with one of them in its head whose body is true they have an
/// atom of the positive body, if one is left. So where no rule supports what is left, and no rule has two true head atoms, no rule
/// supports them either. Of several loops they have as few as may be. The time is linear in the lengths of the rules and of the
/// set. `NoMemory`: memory was refused.
pub fn part_with(
    alloc: Global,
    rules: &[GroundRule],
    set: &Bits,
    left: &Bits,
    atom: u32,
) -> Result<Bits, NoMemory>
    requires below { IsTrue (list_all (is_rule_below (length set.now)) rules.now) }
    requires left { length left.now ≡ length set.now }
    ensures { IfOk result (IsPartOf left.now) }
{
    let rules_of = rules_by_head(alloc, rules, left)?;
    let mut small = Bits::new(alloc, left.len())?;
    let mut waiting = Vec::new(alloc);
    if atom >= left.len() {
        return Ok(small);
    }
    take(&mut small, &mut waiting, left, atom)?;
    grow(&mut small, &mut waiting, &rules_of, rules, set, left)?;
    Ok(small)
}
