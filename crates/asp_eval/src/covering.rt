//! Atoms whose literals make the body of each constraint false.
ghost use Rattle.std.specs.Prelude.{◌≡◌, false, not, IsTrue, length};
ghost use Rattle.std.specs.List.{list_all, list_any};
ghost use Rattle.asp_bits.specs.Places.{true_places};
ghost use Rattle.asp_defs.specs.Interpretations.{holds};
ghost use Rattle.asp_reduct.specs.Bounds.{are_below, is_rule_below};
ghost use Rattle.asp_eval.specs.Broken.{AreUnbroken};
ghost use Rattle.asp_eval.specs.Covers.{has_chosen, is_covered as is_covered_by};
ghost use Rattle.asp_eval.specs.Covering.{IsWithin, CoversRule, Covers};
ghost use Rattle.asp_defs.specs.Truth.{body_true as is_body_true};

use crate::preferences::false_atom;
use asp_bits::Bits;
use asp_defs::GroundRule;
use asp_entry::{Preferences, is_chosen};

/// Whether one of the atoms is false in every move: it is none of the outer ones.
pub fn any_inner(atoms: &[u32], outer: &Bits) -> bool
    requires { IsTrue (are_below (length outer.now) atoms.now) }
    ensures { result ≡ list_any (λ a. not (holds (true_places outer.now) a)) atoms.now }
{
    for atom in atoms {
        if !outer.get(*atom) {
            return true;
        }
    }
    false
}

/// Whether one of the atoms is chosen and has this truth.
fn any_chosen(atoms: &[u32], truth: bool, set: &Bits, chosen: &Bits) -> bool
    requires below { IsTrue (are_below (length set.now) atoms.now) }
    requires same_length { length chosen.now ≡ length set.now }
    ensures { result ≡ has_chosen (true_places chosen.now) (true_places set.now) truth atoms.now }
{
    for atom in atoms {
        if is_chosen(*atom, truth, set, chosen) {
            return true;
        }
    }
    false
}

/// Whether the body is false in every move that agrees with `set` on the chosen atoms.
pub fn is_covered(rule: &GroundRule, set: &Bits, outer: &Bits, chosen: &Bits) -> bool
    requires below { IsTrue (is_rule_below (length set.now) rule.now) }
    requires outer { length outer.now ≡ length set.now }
    requires chosen { length chosen.now ≡ length set.now }
    ensures { result ≡
        is_covered_by (true_places outer.now) (true_places chosen.now) (true_places set.now) rule.now }
{
    any_inner(rule.pos.as_slice(), outer)
        || any_chosen(rule.pos.as_slice(), false, set, chosen)
        || any_chosen(rule.neg.as_slice(), true, set, chosen)
}

/// Adds an atom to the chosen ones where the body isn't covered, so that it is.
pub fn cover_rule(
    rule: &GroundRule,
    set: &Bits,
    outer: &Bits,
    preferences: &Preferences<'_>,
    chosen: &mut Bits,
)
    requires below { IsTrue (is_rule_below (length set.now) rule.now) }
    requires outer { length outer.now ≡ length set.now }
    requires chosen { length chosen.old ≡ length set.now }
    requires kept { length preferences.now.kept.now ≡ length set.now }
    requires standings { length preferences.now.standings.now ≡ length set.now }
    requires inside { IsWithin (true_places set.now) (true_places outer.now) }
    requires unbroken { is_body_true (true_places set.now) rule.now ≡ false }
    ensures { CoversRule
        (true_places outer.now) (true_places set.now) rule.now chosen.old chosen.new }
{
    if is_covered(rule, set, outer, chosen) {
        return;
    }
    if let Some(atom) = false_atom(rule, set, preferences) {
        chosen.set(atom, true);
    }
}

/// Adds atoms to the chosen ones until all bodies are covered.
pub fn cover(
    rules: &[GroundRule],
    set: &Bits,
    outer: &Bits,
    preferences: &Preferences<'_>,
    chosen: &mut Bits,
)
    requires below { IsTrue (list_all (is_rule_below (length set.now)) rules.now) }
    requires outer { length outer.now ≡ length set.now }
    requires chosen { length chosen.old ≡ length set.now }
    requires kept { length preferences.now.kept.now ≡ length set.now }
    requires standings { length preferences.now.standings.now ≡ length set.now }
    requires inside { IsWithin (true_places set.now) (true_places outer.now) }
    requires unbroken { AreUnbroken (true_places set.now) rules.now }
    ensures { Covers (true_places outer.now) (true_places set.now) rules.now chosen.old chosen.new }
{
    for rule in rules {
        cover_rule(rule, set, outer, preferences, chosen);
    }
}
