//! What is marked for rules.
ghost use Rattle.std.specs.Prelude.{◌≡◌, ◌∷◌, [], true, IsTrue, length};
ghost use Rattle.std.specs.List.{list_all};
ghost use Rattle.asp_bits.specs.Places.{true_places};
ghost use Rattle.asp_defs.specs.Games.{rule_atoms};
ghost use Rattle.asp_defs.specs.Truth.{satisfies, is_model};
ghost use Rattle.asp_reduct.specs.Bounds.{are_below, is_rule_below};
ghost use Rattle.asp_explain.specs.Achieving.{MarksAtoms, SettlesRules, SatisfiesRules};
ghost use Rattle.asp_explain.specs.Achieving.{IsFalseAtom, IsWitness};

use crate::known::is_safe;
use crate::support::may_support;
use asp_bits::Bits;
use asp_defs::GroundRule;
use asp_entry::{Preferences, first_of_truth, mark, mark_all};
use asp_reduct::{first_false, first_true};

/// Marks the rule's outer atoms.
pub fn mark_rule(marks: &mut Bits, rule: &GroundRule, outer: &Bits)
    requires below { IsTrue (is_rule_below (length outer.now) rule.now) }
    requires marks { length marks.old ≡ length outer.now }
    ensures { MarksAtoms (true_places outer.now) (rule_atoms rule.now) marks.old marks.new }
{
    mark_all(marks, rule.head.as_slice(), outer);
    mark_all(marks, rule.pos.as_slice(), outer);
    mark_all(marks, rule.neg.as_slice(), outer);
}

/// Marks the rule's outer atoms where it may support atoms that aren't founded.
fn settle_rule(marks: &mut Bits, rule: &GroundRule, set: &Bits, outer: &Bits, founded: &Bits)
    requires below { IsTrue (is_rule_below (length outer.now) rule.now) }
    requires set { length set.now ≡ length outer.now }
    requires marks { length marks.old ≡ length outer.now }
    requires founded { length founded.now ≡ length outer.now }
    ensures { SettlesRules (true_places outer.now) (true_places founded.now)
        (true_places set.now) (rule.now ∷ []) marks.old marks.new }
{
    if may_support(rule, set, founded) {
        mark_rule(marks, rule, outer);
    }
}

/// Marks the outer atoms of all rules that may support atoms that aren't founded.
pub fn settle(marks: &mut Bits, rules: &[GroundRule], set: &Bits, outer: &Bits, founded: &Bits)
    requires below { IsTrue (list_all (is_rule_below (length outer.now)) rules.now) }
    requires set { length set.now ≡ length outer.now }
    requires marks { length marks.old ≡ length outer.now }
    requires founded { length founded.now ≡ length outer.now }
    ensures { SettlesRules (true_places outer.now) (true_places founded.now)
        (true_places set.now) rules.now marks.old marks.new }
{
    for rule in rules {
        settle_rule(marks, rule, set, outer, founded);
    }
}

/// The atom of a false literal of a body.
pub fn false_atom(pos: &[u32], neg: &[u32], set: &Bits) -> Option<u32>
    requires pos { IsTrue (are_below (length set.now) pos.now) }
    requires neg { IsTrue (are_below (length set.now) neg.now) }
    ensures { IsFalseAtom (true_places set.now) pos.now neg.now result }
{
    match first_false(pos, set) {
        Some(atom) => Some(atom),
        None => first_true(neg, set),
    }
}

/// The atom that is taken first of those that satisfy the rule: the true ones of the head, and those of the body's false
/// literals.
pub fn witness(rule: &GroundRule, set: &Bits, preferences: &Preferences<'_>) -> Option<u32>
    requires below { IsTrue (is_rule_below (length set.now) rule.now) }
    requires kept { length preferences.now.kept.now ≡ length set.now }
    requires standings { length preferences.now.standings.now ≡ length set.now }
    ensures { IsWitness (true_places set.now) rule.now result }
{
    let of_head = first_of_truth(None, rule.head.as_slice(), true, set, preferences);
    let of_pos = first_of_truth(of_head, rule.pos.as_slice(), false, set, preferences);
    first_of_truth(of_pos, rule.neg.as_slice(), true, set, preferences)
}

/// Marks an outer atom that satisfies the rule, where it isn't known to be satisfied.
pub fn satisfy_rule(
    marks: &mut Bits,
    rule: &GroundRule,
    set: &Bits,
    outer: &Bits,
    preferences: &Preferences<'_>,
)
    requires below { IsTrue (is_rule_below (length outer.now) rule.now) }
    requires set { length set.now ≡ length outer.now }
    requires marks { length marks.old ≡ length outer.now }
    requires kept { length preferences.now.kept.now ≡ length outer.now }
    requires standings { length preferences.now.standings.now ≡ length outer.now }
    requires satisfied { satisfies (true_places set.now) rule.now ≡ true }
    ensures { SatisfiesRules
        (true_places outer.now) (true_places set.now) (rule.now ∷ []) marks.old marks.new }
{
    if is_safe(rule, set, outer, marks) {
        return;
    }
    if let Some(atom) = witness(rule, set, preferences) {
        mark(marks, atom, outer);
    }
}

/// Marks outer atoms until all rules are known to be satisfied.
pub fn satisfy(
    marks: &mut Bits,
    rules: &[GroundRule],
    set: &Bits,
    outer: &Bits,
    preferences: &Preferences<'_>,
)
    requires below { IsTrue (list_all (is_rule_below (length outer.now)) rules.now) }
    requires set { length set.now ≡ length outer.now }
    requires marks { length marks.old ≡ length outer.now }
    requires kept { length preferences.now.kept.now ≡ length outer.now }
    requires standings { length preferences.now.standings.now ≡ length outer.now }
    requires satisfied { is_model (true_places set.now) rules.now ≡ true }
    ensures { SatisfiesRules
        (true_places outer.now) (true_places set.now) rules.now marks.old marks.new }
{
    for rule in rules {
        satisfy_rule(marks, rule, set, outer, preferences);
    }
}
