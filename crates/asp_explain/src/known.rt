//! What is known of atoms, bodies and rules where only the marked outer atoms are fixed.
ghost use Rattle.std.specs.Prelude.{◌≡◌, ◌<◌, ◌&&◌, IsTrue, length};
ghost use Rattle.asp_bits.specs.Places.{true_places};
ghost use Rattle.asp_defs.specs.Interpretations.{holds};
ghost use Rattle.asp_defs.specs.History.{agrees};
ghost use Rattle.asp_reduct.specs.Bounds.{are_below, is_rule_below};
ghost use Rattle.asp_explain.specs.Resting.{is_known as is_known_in, has_known as has_known_in};
ghost use Rattle.asp_explain.specs.Resting.{is_blocked as is_blocked_in, is_safe as is_safe_in};

use asp_bits::Bits;
use asp_defs::GroundRule;

/// Whether the truth of the atom is known: it is the level's own, or marked.
fn is_known(atom: u32, outer: &Bits, marks: &Bits) -> bool
    requires below { atom < length outer.now }
    requires marks { length marks.now ≡ length outer.now }
    ensures { result ≡ is_known_in (true_places outer.now) (true_places marks.now) atom }
{
    let lower = outer.get(atom);
    let marked = marks.get(atom);
    !lower || marked
}

/// Whether the atom is known and has this truth.
fn is_known_as(atom: u32, truth: bool, set: &Bits, outer: &Bits, marks: &Bits) -> bool
    requires below { atom < length outer.now }
    requires set { length set.now ≡ length outer.now }
    requires marks { length marks.now ≡ length outer.now }
    ensures { result ≡ (agrees truth (holds (true_places set.now) atom)
        && is_known_in (true_places outer.now) (true_places marks.now) atom) }
{
    let value = set.get(atom);
    let known = is_known(atom, outer, marks);
    value == truth && known
}

/// Whether one of the atoms is known and has this truth.
fn has_known(atoms: &[u32], truth: bool, set: &Bits, outer: &Bits, marks: &Bits) -> bool
    requires below { IsTrue (are_below (length outer.now) atoms.now) }
    requires set { length set.now ≡ length outer.now }
    requires marks { length marks.now ≡ length outer.now }
    ensures { result ≡ has_known_in
        (true_places outer.now) (true_places marks.now) (true_places set.now) truth atoms.now }
{
    for atom in atoms {
        if is_known_as(*atom, truth, set, outer, marks) {
            return true;
        }
    }
    false
}

/// Whether a body is known to be false.
pub fn is_blocked(pos: &[u32], neg: &[u32], set: &Bits, outer: &Bits, marks: &Bits) -> bool
    requires pos { IsTrue (are_below (length outer.now) pos.now) }
    requires neg { IsTrue (are_below (length outer.now) neg.now) }
    requires set { length set.now ≡ length outer.now }
    requires marks { length marks.now ≡ length outer.now }
    ensures { result ≡ is_blocked_in
        (true_places outer.now) (true_places marks.now) (true_places set.now) pos.now neg.now }
{
    has_known(pos, false, set, outer, marks) || has_known(neg, true, set, outer, marks)
}

/// Whether the rule is known to be satisfied.
pub fn is_safe(rule: &GroundRule, set: &Bits, outer: &Bits, marks: &Bits) -> bool
    requires below { IsTrue (is_rule_below (length outer.now) rule.now) }
    requires set { length set.now ≡ length outer.now }
    requires marks { length marks.now ≡ length outer.now }
    ensures { result ≡ is_safe_in
        (true_places outer.now) (true_places marks.now) (true_places set.now) rule.now }
{
    rule.choice
        || has_known(rule.head.as_slice(), true, set, outer, marks)
        || is_blocked(rule.pos.as_slice(), rule.neg.as_slice(), set, outer, marks)
}
