//! The only true atom of a head.
ghost use Rattle.std.specs.Prelude.{◌≡◌, ◌<◌, ◌&&◌, ◌∷◌, [], not, IsTrue, IfSome, length};
ghost use Rattle.std.specs.List.{list_all};
ghost use Rattle.asp_bits.specs.Places.{true_places};
ghost use Rattle.asp_defs.specs.Interpretations.{holds};
ghost use Rattle.asp_reduct.specs.Bounds.{are_below, is_rule_below};
ghost use Rattle.asp_least.specs.Founding.{IsOnlyTrue, IsLeftHead};

use asp_bits::Bits;
use asp_defs::GroundRule;
use asp_reduct::{body_true, first_true};

/// Whether the other atom is true and another one.
fn is_other(other: u32, set: &Bits, atom: u32) -> bool
    requires { other < length set.now }
    ensures { result ≡ (holds (true_places set.now) other && not (holds (atom ∷ []) other)) }
{
    let inside = set.get(other);
    inside && atom != other
}

/// Whether none of the atoms but this one is true.
pub fn no_other(atoms: &[u32], set: &Bits, atom: u32) -> bool
    requires { IsTrue (are_below (length set.now) atoms.now) }
    ensures { result ≡ list_all (λ a. not (holds (true_places set.now) a && not (holds (atom ∷ []) a))) atoms.now }
{
    for other in atoms {
        if is_other(*other, set, atom) {
            return false;
        }
    }
    true
}

/// The only true one of the atoms, or none where there are others or none.
fn only_true(atoms: &[u32], set: &Bits) -> Option<u32>
    requires { IsTrue (are_below (length set.now) atoms.now) }
    ensures { IfSome result (IsOnlyTrue (true_places set.now) atoms.now) }
{
    let atom = first_true(atoms, set)?;
    if no_other(atoms, set, atom) {
        return Some(atom);
    }
    None
}

/// The only true head atom of a rule with a true body, where it is left.
pub fn left_head(rule: &GroundRule, set: &Bits, left: &Bits) -> Option<u32>
    requires below { IsTrue (is_rule_below (length set.now) rule.now) }
    requires left { length left.now ≡ length set.now }
    ensures { IfSome result (IsLeftHead (true_places set.now) (true_places left.now) rule.now) }
{
    if !body_true(rule, set) {
        return None;
    }
    let atom = only_true(rule.head.as_slice(), set)?;
    if atom < left.len() && left.get(atom) {
        return Some(atom);
    }
    None
}
