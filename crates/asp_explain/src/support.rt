//! Rules that may support atoms of a move that aren't founded.
ghost use Rattle.std.specs.Prelude.{◌≡◌, ◌<◌, ◌&&◌, IsTrue, length};
ghost use Rattle.std.specs.List.{list_any};
ghost use Rattle.asp_bits.specs.Places.{true_places};
ghost use Rattle.asp_defs.specs.Interpretations.{holds};
ghost use Rattle.asp_defs.specs.History.{agrees};
ghost use Rattle.asp_reduct.specs.Bounds.{are_below, is_rule_below};
ghost use Rattle.asp_explain.specs.Resting.{may_support as may_support_in};

use asp_bits::Bits;
use asp_defs::GroundRule;
use asp_reduct::body_true;

/// Whether the atom is true, and a founded one or not as asked.
fn is_true_one(atom: u32, wanted: bool, set: &Bits, founded: &Bits) -> bool
    requires below { atom < length founded.now }
    requires set { length set.now ≡ length founded.now }
    ensures { result ≡ (holds (true_places set.now) atom
        && agrees wanted (holds (true_places founded.now) atom)) }
{
    let value = set.get(atom);
    let place = founded.get(atom);
    value && place == wanted
}

/// Whether one of the atoms is true, and a founded one or not as asked.
fn has_true_one(atoms: &[u32], wanted: bool, set: &Bits, founded: &Bits) -> bool
    requires below { IsTrue (are_below (length founded.now) atoms.now) }
    requires set { length set.now ≡ length founded.now }
    ensures { result ≡ list_any
        (λ a. holds (true_places set.now) a && agrees wanted (holds (true_places founded.now) a))
        atoms.now }
{
    for atom in atoms {
        if is_true_one(*atom, wanted, set, founded) {
            return true;
        }
    }
    false
}

/// Whether the rule may support atoms that aren't founded: its body is true, and so is some head atom, but no founded one.
pub fn may_support(rule: &GroundRule, set: &Bits, founded: &Bits) -> bool
    requires below { IsTrue (is_rule_below (length founded.now) rule.now) }
    requires set { length set.now ≡ length founded.now }
    ensures { result ≡ may_support_in (true_places founded.now) (true_places set.now) rule.now }
{
    body_true(rule, set)
        && has_true_one(rule.head.as_slice(), false, set, founded)
        && !has_true_one(rule.head.as_slice(), true, set, founded)
}
