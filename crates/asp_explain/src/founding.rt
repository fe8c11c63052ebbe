//! Own atoms that are founded one after another, on as few outer atoms as come first.
ghost use Rattle.std.specs.Prelude.{◌≡◌, ◌<◌, ◌&&◌, ◌∷◌, [], not, IsTrue, IfSome, OnOk, length};
ghost use Rattle.std.specs.List.{list_all};
ghost use Rattle.asp_bits.specs.Places.{true_places};
ghost use Rattle.asp_defs.specs.Interpretations.{holds};
ghost use Rattle.asp_reduct.specs.Bounds.{are_below, is_rule_below};
ghost use Rattle.asp_explain.specs.Founding.{IsOnlyHead, Founds, FoundsMore};

use crate::rules::mark_rule;
use crate::waiting::Waiting;
use asp_bits::Bits;
use asp_defs::{GroundRule, NoMemory};
use asp_reduct::{body_true, first_false, first_true};
use std::alloc::Global;

/// Whether the other atom is true and another one.
fn is_other(other: u32, set: &Bits, atom: u32) -> bool
    requires { other < length set.now }
    ensures { result ≡ (holds (true_places set.now) other && not (holds (atom ∷ []) other)) }
{
    let inside = set.get(other);
    inside && atom != other
}

/// Whether none of the atoms but this one is true.
fn no_other(atoms: &[u32], set: &Bits, atom: u32) -> bool
    requires { IsTrue (are_below (length set.now) atoms.now) }
    ensures { result ≡ list_all
        (λ a. not (holds (true_places set.now) a && not (holds (atom ∷ []) a))) atoms.now }
{
    for other in atoms {
        if is_other(*other, set, atom) {
            return false;
        }
    }
    true
}

/// The atom that is the rule's only true head atom, where it isn't founded yet.
fn only_head_atom(rule: &GroundRule, set: &Bits, founded: &Bits) -> Option<u32>
    requires below { IsTrue (is_rule_below (length set.now) rule.now) }
    requires founded { length founded.now ≡ length set.now }
    ensures { IfSome result (IsOnlyHead (true_places set.now) (true_places founded.now) rule.now) }
{
    let atom = first_true(rule.head.as_slice(), set)?;
    if !founded.get(atom) && no_other(rule.head.as_slice(), set, atom) {
        return Some(atom);
    }
    None
}

/// The atom that the rule founds on those that are founded: its body is true, all its positive atoms are founded, and the atom
/// is its only true head atom and not founded yet.
fn founded_atom(rule: &GroundRule, set: &Bits, founded: &Bits) -> Option<u32>
    requires below { IsTrue (is_rule_below (length set.now) rule.now) }
    requires founded { length founded.now ≡ length set.now }
    ensures { IfSome result (Founds (true_places set.now) (true_places founded.now) rule.now) }
{
    if !body_true(rule, set) {
        return None;
    }
    match first_false(rule.pos.as_slice(), founded) {
        Some(_) => None,
        None => only_head_atom(rule, set, founded),
    }
}

/// Marks the rule's outer atoms where it founds an atom, which is answered.
fn found_rule(
    marks: &mut Bits,
    founded: &mut Bits,
    rule: &GroundRule,
    set: &Bits,
    outer: &Bits,
) -> Option<u32>
    requires below { IsTrue (is_rule_below (length outer.now) rule.now) }
    requires set { length set.now ≡ length outer.now }
    requires marks { length marks.old ≡ length outer.now }
    requires founded { length founded.old ≡ length outer.now }
    ensures { FoundsMore (true_places outer.now) (true_places set.now) (rule.now ∷ [])
        marks.old founded.old marks.new founded.new }
{
    let atom = founded_atom(rule, set, founded)?;
    mark_rule(marks, rule, outer);
    founded.set(atom, true);
    Some(atom)
}

/// Marks the outer atoms of the rule at this place where it founds an atom, and lets those go on that wait for the atom.
/// `NoMemory`: memory was refused.
fn take_turn(
    marks: &mut Bits,
    founded: &mut Bits,
    waiting: &mut Waiting,
    place: usize,
    rules: &[GroundRule],
    set: &Bits,
    outer: &Bits,
) -> Result<(), NoMemory>
    requires below { IsTrue (list_all (is_rule_below (length outer.now)) rules.now) }
    requires set { length set.now ≡ length outer.now }
    requires marks { length marks.old ≡ length outer.now }
    requires founded { length founded.old ≡ length outer.now }
    ensures { FoundsMore (true_places outer.now) (true_places set.now) rules.now
        marks.old founded.old marks.new founded.new }
{
    if place >= rules.len() {
        return Ok(());
    }
    match found_rule(marks, founded, &rules[place], set, outer) {
        Some(atom) => waiting.release(atom, rules, outer, marks),
        None => Ok(()),
    }
}

/// Founds own atoms by rules whose outer atoms are marked, until no rule founds another one. Of the rules that are ready, one
/// is next that had the fewest unmarked outer atoms when it became ready.
///
/// `NoMemory`: memory was refused; further atoms may be marked.
pub fn found_atoms(
    alloc: Global,
    marks: &mut Bits,
    founded: &mut Bits,
    rules: &[GroundRule],
    set: &Bits,
    outer: &Bits,
) -> Result<(), NoMemory>
    requires below { IsTrue (list_all (is_rule_below (length outer.now)) rules.now) }
    requires set { length set.now ≡ length outer.now }
    requires marks { length marks.old ≡ length outer.now }
    requires founded { length founded.old ≡ length outer.now }
    ensures { OnOk result
        (FoundsMore (true_places outer.now) (true_places set.now) rules.now
        marks.old founded.old marks.new founded.new) }
{
    let mut waiting = Waiting::new(alloc, outer.len())?;
    waiting.add_rules(rules, set, outer, marks)?;
    for _ in 0..rules.len() {
        let Some(place) = waiting.next() else {
            return Ok(());
        };
        take_turn(marks, founded, &mut waiting, place, rules, set, outer)?;
    }
    Ok(())
}
