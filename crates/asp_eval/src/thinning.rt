//! Few atoms whose literals make the body of each constraint false.
ghost use Rattle.std.specs.Prelude.{◌≡◌, ◌≤◌, ℕ, true, IsTrue, IfOk, length, Some};
ghost use Rattle.std.specs.List.{list_all};
ghost use Rattle.asp_bits.specs.Places.{true_places};
ghost use Rattle.asp_defs.specs.Interpretations.{holds};
ghost use Rattle.asp_reduct.specs.Bounds.{are_below, is_rule_below};
ghost use Rattle.asp_eval.specs.Broken.{AreUnbroken};
ghost use Rattle.asp_eval.specs.Covering.{IsWithin, IsPart, Adds, IsThinned, IsCovering};

use crate::covering::{any_inner, cover, cover_rule, is_covered};
use crate::preferences::{false_atom, standings};
use asp_bits::Bits;
use asp_defs::{GroundRule, List, NoMemory, Quant};
use asp_entry::{Preferences, Turn, is_chosen};
use std::alloc::Global;

/// How many of the atoms are chosen and have this truth.
fn count_chosen(atoms: &[u32], truth: bool, set: &Bits, chosen: &Bits) -> usize
    requires below { IsTrue (are_below (length set.now) atoms.now) }
    requires same_length { length chosen.now ≡ length set.now }
    ensures { result ≤ length atoms.now }
{
    let mut count = 0;
    for atom in atoms {
        if is_chosen(*atom, truth, set, chosen) {
            count += 1;
        }
    }
    count
}

/// The first of the atoms that is chosen and has this truth.
fn first_chosen(atoms: &[u32], truth: bool, set: &Bits, chosen: &Bits) -> Option<u32>
    requires below { IsTrue (are_below (length set.now) atoms.now) }
    requires same_length { length chosen.now ≡ length set.now }
    ensures { (a : ℕ) → result ≡ Some a → holds (true_places chosen.now) a ≡ true }
{
    for atom in atoms {
        if is_chosen(*atom, truth, set, chosen) {
            return Some(*atom);
        }
    }
    None
}

/// The chosen atom that alone covers the body, if one does.
fn only_cover(rule: &GroundRule, set: &Bits, outer: &Bits, chosen: &Bits) -> Option<u32>
    requires below { IsTrue (is_rule_below (length set.now) rule.now) }
    requires outer { length outer.now ≡ length set.now }
    requires chosen { length chosen.now ≡ length set.now }
    ensures { (a : ℕ) → result ≡ Some a → holds (true_places chosen.now) a ≡ true }
{
    let (pos, neg) = (rule.pos.as_slice(), rule.neg.as_slice());
    if any_inner(pos, outer) {
        return None;
    }
    match (
        count_chosen(pos, false, set, chosen),
        count_chosen(neg, true, set, chosen),
    ) {
        (1, 0) => first_chosen(pos, false, set, chosen),
        (0, 1) => first_chosen(neg, true, set, chosen),
        _ => None,
    }
}

/// Adds the chosen atom that alone covers the body, if one does.
fn add_only_cover(rule: &GroundRule, set: &Bits, outer: &Bits, chosen: &Bits, needed: &mut Bits)
    requires below { IsTrue (is_rule_below (length set.now) rule.now) }
    requires outer { length outer.now ≡ length set.now }
    requires chosen { length chosen.now ≡ length set.now }
    requires part { IsPart chosen.now (length set.now) needed.old }
    ensures { IsPart chosen.now (length set.now) needed.new }
{
    if let Some(atom) = only_cover(rule, set, outer, chosen) {
        needed.set(atom, true);
    }
}

/// Those of the chosen atoms that alone cover some body. `NoMemory`: memory was refused.
fn only_covers(
    alloc: Global,
    rules: &[GroundRule],
    set: &Bits,
    outer: &Bits,
    chosen: &Bits,
) -> Result<Bits, NoMemory>
    requires below { IsTrue (list_all (is_rule_below (length set.now)) rules.now) }
    requires outer { length outer.now ≡ length set.now }
    requires chosen { length chosen.now ≡ length set.now }
    ensures { IfOk result (IsPart chosen.now (length set.now)) }
{
    let mut needed = Bits::new(alloc, set.len())?;
    for rule in rules {
        add_only_cover(rule, set, outer, chosen, &mut needed);
    }
    Ok(needed)
}

/// The turn of a constraint that the atoms don't cover.
fn turn_of(
    rule: &GroundRule,
    place: usize,
    set: &Bits,
    outer: &Bits,
    preferences: &Preferences<'_>,
    needed: &Bits,
) -> Option<Turn>
    requires below { IsTrue (is_rule_below (length set.now) rule.now) }
    requires outer { length outer.now ≡ length set.now }
    requires needed { length needed.now ≡ length set.now }
    requires kept { length preferences.now.kept.now ≡ length set.now }
    requires standings { length preferences.now.standings.now ≡ length set.now }
{
    if is_covered(rule, set, outer, needed) {
        return None;
    }
    let atom = false_atom(rule, set, preferences)?;
    Some(Turn {
        atom: preferences.lateness(atom),
        rule: place,
    })
}

/// The turns of the constraints that the atoms don't cover, in the order of the atoms. `NoMemory`: memory was refused.
fn turns(
    alloc: Global,
    rules: &[GroundRule],
    set: &Bits,
    outer: &Bits,
    preferences: &Preferences<'_>,
    needed: &Bits,
) -> Result<Vec<Turn>, NoMemory>
    requires below { IsTrue (list_all (is_rule_below (length set.now)) rules.now) }
    requires outer { length outer.now ≡ length set.now }
    requires needed { length needed.now ≡ length set.now }
    requires kept { length preferences.now.kept.now ≡ length set.now }
    requires standings { length preferences.now.standings.now ≡ length set.now }
{
    let mut turns = Vec::new(alloc);
    for place in 0..rules.len() {
        let next = turn_of(&rules[place], place, set, outer, preferences, needed);
        if let Some(next) = next {
            turns.push(next)?;
        }
    }
    turns.sort_unstable();
    Ok(turns)
}

/// Adds an atom to the chosen ones where the constraint at a place isn't covered, so that it is.
fn cover_place(
    rules: &[GroundRule],
    place: usize,
    set: &Bits,
    outer: &Bits,
    preferences: &Preferences<'_>,
    chosen: &mut Bits,
)
    requires below { IsTrue (list_all (is_rule_below (length set.now)) rules.now) }
    requires outer { length outer.now ≡ length set.now }
    requires chosen { length chosen.old ≡ length set.now }
    requires kept { length preferences.now.kept.now ≡ length set.now }
    requires standings { length preferences.now.standings.now ≡ length set.now }
    requires inside { IsWithin (true_places set.now) (true_places outer.now) }
    requires unbroken { AreUnbroken (true_places set.now) rules.now }
    ensures { Adds (true_places outer.now) rules.now chosen.old chosen.new }
{
    if place < rules.len() {
        cover_rule(&rules[place], set, outer, preferences, chosen);
    }
}

/// Covers constraints in their turns, from the last to the first.
fn cover_in_turn(
    rules: &[GroundRule],
    turns: &[Turn],
    set: &Bits,
    outer: &Bits,
    preferences: &Preferences<'_>,
    chosen: &mut Bits,
)
    requires below { IsTrue (list_all (is_rule_below (length set.now)) rules.now) }
    requires outer { length outer.now ≡ length set.now }
    requires chosen { length chosen.old ≡ length set.now }
    requires kept { length preferences.now.kept.now ≡ length set.now }
    requires standings { length preferences.now.standings.now ≡ length set.now }
    requires inside { IsWithin (true_places set.now) (true_places outer.now) }
    requires unbroken { AreUnbroken (true_places set.now) rules.now }
    ensures { Adds (true_places outer.now) rules.now chosen.old chosen.new }
{
    for at in (0..turns.len()).rev() {
        cover_place(rules, turns[at].rule, set, outer, preferences, chosen);
    }
}

/// Those of the kept atoms that cover what all of them do, where none of them is needless.
///
/// Those that alone cover some body come first. For each other body the first of its kept atoms is taken, unless one taken
/// already covers it. The bodies go from the one whose first atom comes last: an atom that is taken later comes before
/// those taken already, so it covers none of the bodies for which they were taken. `NoMemory`: memory was refused.
fn irredundant_atoms(
    alloc: Global,
    rules: &[GroundRule],
    set: &Bits,
    outer: &Bits,
    preferences: &Preferences<'_>,
) -> Result<Bits, NoMemory>
    requires below { IsTrue (list_all (is_rule_below (length set.now)) rules.now) }
    requires outer { length outer.now ≡ length set.now }
    requires kept { length preferences.now.kept.now ≡ length set.now }
    requires standings { length preferences.now.standings.now ≡ length set.now }
    requires inside { IsWithin (true_places set.now) (true_places outer.now) }
    requires unbroken { AreUnbroken (true_places set.now) rules.now }
    ensures { IfOk result
        (IsThinned (true_places outer.now) rules.now preferences.now.kept.now (length set.now)) }
{
    let mut thinned = only_covers(alloc, rules, set, outer, preferences.kept)?;
    let turns = turns(alloc, rules, set, outer, preferences, &thinned)?;
    cover_in_turn(rules, &turns, set, outer, preferences, &mut thinned);
    Ok(thinned)
}

/// Atoms whose literals in `set` make the body of each constraint false, whatever the other outer atoms are.
///
/// They are chosen among all false literals, and those that are needless in the end go. The time is linear in the lengths
/// of the constraints and of the bases, but for a sort of the constraints that no needed atom covers. `NoMemory`: memory was refused.
pub fn covering_atoms(
    alloc: Global,
    rules: &[GroundRule],
    bases: &[List<u32>],
    quant: Quant,
    set: &Bits,
    outer: &Bits,
) -> Result<Bits, NoMemory>
    requires below { IsTrue (list_all (is_rule_below (length set.now)) rules.now) }
    requires outer { length outer.now ≡ length set.now }
    requires inside { IsWithin (true_places set.now) (true_places outer.now) }
    requires unbroken { AreUnbroken (true_places set.now) rules.now }
    ensures { IfOk result
        (IsCovering (true_places outer.now) (true_places set.now) rules.now (length set.now)) }
{
    let standings = standings(alloc, rules, bases, quant, set)?;
    let none = Bits::new(alloc, set.len())?;
    let mut chosen = Bits::new(alloc, set.len())?;
    let first = Preferences {
        kept: &none,
        standings: &standings,
    };
    cover(rules, set, outer, &first, &mut chosen);
    let second = Preferences {
        kept: &chosen,
        standings: &standings,
    };
    let mut thinned = irredundant_atoms(alloc, rules, set, outer, &second)?;
    // The thinned atoms cover all that the chosen ones did, so none is added; this stands for a proof of that.
    cover(rules, set, outer, &second, &mut thinned);
    Ok(thinned)
}
