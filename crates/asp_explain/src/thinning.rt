//! Few outer atoms that satisfy the rules that nothing marked before satisfies.
ghost use Rattle.std.specs.Prelude.{◌≡◌, ◌<◌, ◌∷◌, [], true, IsTrue, IfOk, OnOk, length};
ghost use Rattle.std.specs.List.{list_all};
ghost use Rattle.asp_bits.specs.Places.{true_places};
ghost use Rattle.asp_defs.specs.Truth.{is_model};
ghost use Rattle.asp_reduct.specs.Bounds.{are_below, is_rule_below};
ghost use Rattle.asp_explain.specs.Achieving.{MarksFew, MarksRules, SatisfiesRules};

use crate::known::is_safe;
use crate::rules::{satisfy, satisfy_rule, witness};
use asp_bits::Bits;
use asp_defs::{GroundRule, List, NoMemory};
use asp_entry::{
    Preferences, Standing, Turn, count_served, is_chosen, last_standings, mark, rank_base,
};
use std::alloc::Global;

/// How many of the atoms have this truth and are chosen; one of the level's own counts for two.
fn weight(atoms: &[u32], truth: bool, set: &Bits, outer: &Bits, chosen: &Bits) -> u32
    requires below { IsTrue (are_below (length outer.now) atoms.now) }
    requires set { length set.now ≡ length outer.now }
    requires chosen { length chosen.now ≡ length outer.now }
{
    let mut weight = 0u32;
    for atom in atoms {
        if set.get(*atom) == truth {
            if !outer.get(*atom) {
                weight = weight.saturating_add(2);
            } else if chosen.get(*atom) {
                weight = weight.saturating_add(1);
            }
        }
    }
    weight
}

/// Whether a single chosen atom satisfies the rule.
fn is_single(rule: &GroundRule, set: &Bits, outer: &Bits, chosen: &Bits) -> bool
    requires below { IsTrue (is_rule_below (length outer.now) rule.now) }
    requires set { length set.now ≡ length outer.now }
    requires chosen { length chosen.now ≡ length outer.now }
{
    let head = weight(rule.head.as_slice(), true, set, outer, chosen);
    let pos = weight(rule.pos.as_slice(), false, set, outer, chosen);
    let neg = weight(rule.neg.as_slice(), true, set, outer, chosen);
    !rule.choice && head.saturating_add(pos).saturating_add(neg) == 1
}

/// Marks the atom where that is wanted and it is an outer one.
fn mark_if(marks: &mut Bits, atom: u32, wanted: bool, outer: &Bits)
    requires below { atom < length outer.now }
    requires marks { length marks.old ≡ length outer.now }
    ensures { MarksFew (true_places outer.now) (atom ∷ []) marks.old marks.new }
{
    if wanted {
        mark(marks, atom, outer);
    }
}

/// Marks those of the atoms that have this truth and are chosen.
fn mark_chosen(
    marks: &mut Bits,
    atoms: &[u32],
    truth: bool,
    set: &Bits,
    outer: &Bits,
    chosen: &Bits,
)
    requires below { IsTrue (are_below (length outer.now) atoms.now) }
    requires set { length set.now ≡ length outer.now }
    requires chosen { length chosen.now ≡ length outer.now }
    requires marks { length marks.old ≡ length outer.now }
    ensures { MarksFew (true_places outer.now) atoms.now marks.old marks.new }
{
    for atom in atoms {
        let wanted = is_chosen(*atom, truth, set, chosen);
        mark_if(marks, *atom, wanted, outer);
    }
}

/// Marks the atom that satisfies the rule, where a single chosen one does.
fn keep_single(marks: &mut Bits, rule: &GroundRule, set: &Bits, outer: &Bits, chosen: &Bits)
    requires below { IsTrue (is_rule_below (length outer.now) rule.now) }
    requires set { length set.now ≡ length outer.now }
    requires chosen { length chosen.now ≡ length outer.now }
    requires marks { length marks.old ≡ length outer.now }
    ensures { MarksRules (true_places outer.now) (rule.now ∷ []) marks.old marks.new }
{
    if !is_single(rule, set, outer, chosen) {
        return;
    }
    mark_chosen(marks, rule.head.as_slice(), true, set, outer, chosen);
    mark_chosen(marks, rule.pos.as_slice(), false, set, outer, chosen);
    mark_chosen(marks, rule.neg.as_slice(), true, set, outer, chosen);
}

/// Marks the chosen atoms that alone satisfy one of the rules.
fn keep_singles(marks: &mut Bits, rules: &[GroundRule], set: &Bits, outer: &Bits, chosen: &Bits)
    requires below { IsTrue (list_all (is_rule_below (length outer.now)) rules.now) }
    requires set { length set.now ≡ length outer.now }
    requires chosen { length chosen.now ≡ length outer.now }
    requires marks { length marks.old ≡ length outer.now }
    ensures { MarksRules (true_places outer.now) rules.now marks.old marks.new }
{
    for rule in rules {
        keep_single(marks, rule, set, outer, chosen);
    }
}

/// Gives each atom the rank of the first base that has it.
fn rank_atoms(standings: &mut [Standing], bases: &[List<u32>])
    ensures { length standings.new ≡ length standings.old }
{
    for level in (0..bases.len()).rev() {
        let rank = u32::try_from(level).unwrap_or(u32::MAX);
        rank_base(standings, bases[level].as_slice(), rank);
    }
}

/// Counts the rule for each atom that satisfies it, where nothing marked does.
fn count_rule(standings: &mut [Standing], rule: &GroundRule, set: &Bits, outer: &Bits, marks: &Bits)
    requires below { IsTrue (is_rule_below (length outer.now) rule.now) }
    requires set { length set.now ≡ length outer.now }
    requires marks { length marks.now ≡ length outer.now }
    requires standings { length standings.old ≡ length outer.now }
    ensures { length standings.new ≡ length standings.old }
{
    if is_safe(rule, set, outer, marks) {
        return;
    }
    count_served(standings, rule.head.as_slice(), true, set);
    count_served(standings, rule.pos.as_slice(), false, set);
    count_served(standings, rule.neg.as_slice(), true, set);
}

/// Where each atom stands behind levels with these bases. `NoMemory`: memory was refused.
fn standings(
    alloc: Global,
    rules: &[GroundRule],
    bases: &[List<u32>],
    set: &Bits,
    outer: &Bits,
    marks: &Bits,
) -> Result<Vec<Standing>, NoMemory>
    requires below { IsTrue (list_all (is_rule_below (length outer.now)) rules.now) }
    requires set { length set.now ≡ length outer.now }
    requires marks { length marks.now ≡ length outer.now }
    ensures { IfOk result (λ standings. length standings.items ≡ length outer.now) }
{
    let mut standings = last_standings(alloc, outer.len())?;
    rank_atoms(&mut standings, bases);
    for rule in rules {
        count_rule(&mut standings, rule, set, outer, marks);
    }
    Ok(standings)
}

/// The turn of a rule that nothing marked satisfies.
fn turn_of(
    rule: &GroundRule,
    place: usize,
    set: &Bits,
    outer: &Bits,
    preferences: &Preferences<'_>,
    marks: &Bits,
) -> Option<Turn>
    requires below { IsTrue (is_rule_below (length outer.now) rule.now) }
    requires set { length set.now ≡ length outer.now }
    requires marks { length marks.now ≡ length outer.now }
    requires kept { length preferences.now.kept.now ≡ length outer.now }
    requires standings { length preferences.now.standings.now ≡ length outer.now }
{
    if is_safe(rule, set, outer, marks) {
        return None;
    }
    let atom = witness(rule, set, preferences)?;
    Some(Turn {
        atom: preferences.lateness(atom),
        rule: place,
    })
}

/// The turns of the rules that nothing marked satisfies, in the order of the atoms. `NoMemory`: memory was refused.
fn turns(
    alloc: Global,
    rules: &[GroundRule],
    set: &Bits,
    outer: &Bits,
    preferences: &Preferences<'_>,
    marks: &Bits,
) -> Result<Vec<Turn>, NoMemory>
    requires below { IsTrue (list_all (is_rule_below (length outer.now)) rules.now) }
    requires set { length set.now ≡ length outer.now }
    requires marks { length marks.now ≡ length outer.now }
    requires kept { length preferences.now.kept.now ≡ length outer.now }
    requires standings { length preferences.now.standings.now ≡ length outer.now }
{
    let mut turns = Vec::new(alloc);
    for place in 0..rules.len() {
        let next = turn_of(&rules[place], place, set, outer, preferences, marks);
        if let Some(next) = next {
            turns.push(next)?;
        }
    }
    turns.sort_unstable();
    Ok(turns)
}

/// Marks an atom that satisfies the rule at a place, where it isn't known to be satisfied.
fn satisfy_place(
    marks: &mut Bits,
    rules: &[GroundRule],
    place: usize,
    set: &Bits,
    outer: &Bits,
    preferences: &Preferences<'_>,
)
    requires below { IsTrue (list_all (is_rule_below (length outer.now)) rules.now) }
    requires set { length set.now ≡ length outer.now }
    requires marks { length marks.old ≡ length outer.now }
    requires kept { length preferences.now.kept.now ≡ length outer.now }
    requires standings { length preferences.now.standings.now ≡ length outer.now }
    requires satisfied { is_model (true_places set.now) rules.now ≡ true }
    ensures { MarksRules (true_places outer.now) rules.now marks.old marks.new }
{
    if place < rules.len() {
        satisfy_rule(marks, &rules[place], set, outer, preferences);
    }
}

/// Satisfies rules in their turns, from the last to the first.
fn satisfy_in_turn(
    marks: &mut Bits,
    rules: &[GroundRule],
    turns: &[Turn],
    set: &Bits,
    outer: &Bits,
    preferences: &Preferences<'_>,
)
    requires below { IsTrue (list_all (is_rule_below (length outer.now)) rules.now) }
    requires set { length set.now ≡ length outer.now }
    requires marks { length marks.old ≡ length outer.now }
    requires kept { length preferences.now.kept.now ≡ length outer.now }
    requires standings { length preferences.now.standings.now ≡ length outer.now }
    requires satisfied { is_model (true_places set.now) rules.now ≡ true }
    ensures { MarksRules (true_places outer.now) rules.now marks.old marks.new }
{
    for at in (0..turns.len()).rev() {
        satisfy_place(marks, rules, turns[at].rule, set, outer, preferences);
    }
}

/// Marks outer atoms until all rules are known to be satisfied, where none that it marks is needless.
///
/// Atoms are chosen one rule after another, where none chosen before satisfies it: those of the earliest base first, then
/// those that satisfy the most rules, then those of the least number. Of the chosen ones those are marked that alone
/// satisfy some rule. For each other rule the first of its chosen atoms is marked, unless a marked one already satisfies it.
/// The rules go from the one whose first atom comes last: an atom that is marked later comes before those marked already, so
/// it satisfies none of the rules for which they were marked. `NoMemory`: memory was refused; further atoms may be marked.
pub fn satisfy_by_few(
    alloc: Global,
    marks: &mut Bits,
    rules: &[GroundRule],
    bases: &[List<u32>],
    set: &Bits,
    outer: &Bits,
) -> Result<(), NoMemory>
    requires below { IsTrue (list_all (is_rule_below (length outer.now)) rules.now) }
    requires set { length set.now ≡ length outer.now }
    requires marks { length marks.old ≡ length outer.now }
    requires satisfied { is_model (true_places set.now) rules.now ≡ true }
    ensures { OnOk result (SatisfiesRules
        (true_places outer.now) (true_places set.now) rules.now marks.old marks.new) }
{
    let standings = standings(alloc, rules, bases, set, outer, marks)?;
    let none = Bits::new(alloc, outer.len())?;
    let mut chosen = marks.copy(alloc)?;
    let first = Preferences {
        kept: &none,
        standings: &standings,
    };
    satisfy(&mut chosen, rules, set, outer, &first);
    keep_singles(marks, rules, set, outer, &chosen);
    let second = Preferences {
        kept: &chosen,
        standings: &standings,
    };
    let turns = turns(alloc, rules, set, outer, &second, marks)?;
    satisfy_in_turn(marks, rules, &turns, set, outer, &second);
    // The marked atoms satisfy all that the chosen ones did, so none is marked; this stands for a proof of that.
    satisfy(marks, rules, set, outer, &second);
    Ok(())
}
