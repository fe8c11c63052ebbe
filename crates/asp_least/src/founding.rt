//! Atoms that are founded one after another.
ghost use Rattle.std.specs.Prelude.{◌≡◌, ℕ, ◌∷◌, [], true, IsTrue, IfOk, IfSome, OnOk, length};
ghost use Rattle.std.specs.List.{list_all};
ghost use Rattle.asp_bits.specs.Places.{true_places};
ghost use Rattle.asp_reduct.specs.Bounds.{is_rule_below};
ghost use Rattle.asp_least.specs.Founding.{Founds, AreLeft, FoundsMore};

use crate::heads::left_head;
use crate::waiting::Waiting;
use asp_bits::Bits;
use asp_defs::{GroundRule, NoMemory};
use asp_reduct::any_true;
use std::alloc::Global;

/// The atom that the rule founds, where none of its positive body is left.
fn founded_atom(rule: &GroundRule, set: &Bits, left: &Bits) -> Option<u32>
    requires below { IsTrue (is_rule_below (length set.now) rule.now) }
    requires left { length left.now ≡ length set.now }
    ensures { IfSome result (Founds (true_places set.now) (true_places left.now) rule.now) }
{
    if any_true(rule.pos.as_slice(), left) {
        return None;
    }
    left_head(rule, set, left)
}

/// Founds the rule's atom, where it founds one, which is answered.
fn found_rule(left: &mut Bits, rule: &GroundRule, set: &Bits) -> Option<u32>
    requires below { IsTrue (is_rule_below (length set.now) rule.now) }
    requires left { length left.old ≡ length set.now }
    ensures { FoundsMore (true_places set.now) (rule.now ∷ []) left.old left.new }
{
    let atom = founded_atom(rule, set, left)?;
    left.set(atom, false);
    Some(atom)
}

/// Founds the atom of the rule at this place, where it founds one, and lets those go on that wait for it. `NoMemory`: memory was
/// refused.
fn take_turn(
    left: &mut Bits,
    waiting: &mut Waiting,
    place: usize,
    rules: &[GroundRule],
    set: &Bits,
) -> Result<(), NoMemory>
    requires below { IsTrue (list_all (is_rule_below (length set.now)) rules.now) }
    requires left { length left.old ≡ length set.now }
    ensures { FoundsMore (true_places set.now) rules.now left.old left.new }
{
    if place >= rules.len() {
        return Ok(());
    }
    match found_rule(left, &rules[place], set) {
        Some(atom) => waiting.release(atom),
        None => Ok(()),
    }
}

/// Founds atoms until no rule founds another one.
fn found_all(
    left: &mut Bits,
    waiting: &mut Waiting,
    rules: &[GroundRule],
    set: &Bits,
) -> Result<(), NoMemory>
    requires below { IsTrue (list_all (is_rule_below (length set.now)) rules.now) }
    requires left { length left.old ≡ length set.now }
    ensures { FoundsMore (true_places set.now) rules.now left.old left.new }
{
    for _ in 0..rules.len() {
        let Some(place) = waiting.next() else {
            return Ok(());
        };
        take_turn(left, waiting, place, rules, set)?;
    }
    Ok(())
}

/// Atoms of the part that stay when rules found others one after another: a rule founds an atom where its body is true in `set`, the
/// atom is the only true one of its head, and each atom of its positive body is founded or outside the part.
///
/// Promised is this of the answer (`AreLeft`): it lies in the part, and no set of atoms of the part that has another one than those
/// left is unfounded in `set`. Not promised: that every atom that rules could found is founded. The time is linear in the lengths of
/// the rules and of the set. `NoMemory`: memory was refused.
pub fn left_unfounded(
    alloc: Global,
    rules: &[GroundRule],
    set: &Bits,
    part: &Bits,
) -> Result<Bits, NoMemory>
    requires below { IsTrue (list_all (is_rule_below (length set.now)) rules.now) }
    requires part { length part.now ≡ length set.now }
    ensures { IfOk result (AreLeft rules.now (true_places set.now) part.now) }
{
    let mut left = part.copy(alloc)?;
    let mut waiting = Waiting::new(alloc, rules, set, part)?;
    found_all(&mut left, &mut waiting, rules, set)?;
    Ok(left)
}
