//! True atoms that no rule supports alone.

ghost use Rattle.std.specs.Prelude.{◌≡◌, ℕ, ◌<◌, ◌&&◌, true, false, not, ◌∷◌, [], length, IsTrue, IfOk, MatchOption};
ghost use Rattle.std.specs.List.{list_all};
ghost use Rattle.asp_bits.specs.Places.{true_places};
ghost use Rattle.asp_defs.specs.Interpretations.{holds};
ghost use Rattle.asp_defs.specs.Unfounded.{is_unfounded};
ghost use Rattle.asp_reduct.specs.Bounds.{is_rule_below};
ghost use Rattle.asp_minimal.specs.Alone.{supports_where_headed, Clears};

use crate::numbers::write;
use asp_bits::Bits;
use asp_defs::{GroundRule, NoMemory};
use asp_least::no_other;
use asp_reduct::{body_true, first_true};
use std::alloc::Global;

/// Whether the atom is none of these.
fn is_absent(atoms: &[u32], atom: u32) -> bool
    ensures { result ≡ list_all (λ a. not (holds (atom ∷ []) a)) atoms.now }
{
    atoms.iter().all(|other| atom != *other)
}

/// Whether the rule, in whose head the atom stands, supports it alone: the body is true, the atom isn't in the positive body, and
/// no other atom of the head is true.
fn supports_alone(rule: &GroundRule, set: &Bits, atom: u32) -> bool
    requires { IsTrue (is_rule_below (length set.now) rule.now) }
    ensures { result ≡ supports_where_headed (true_places set.now) atom rule.now }
{
    body_true(rule, set)
        && (is_absent(rule.pos.as_slice(), atom) && no_other(rule.head.as_slice(), set, atom))
}

/// Makes the true atom false in `alone` that the rule supports alone, where there is one.
fn clear_supported(alone: &mut Bits, rule: &GroundRule, set: &Bits)
    requires below { IsTrue (is_rule_below (length set.now) rule.now) }
    requires inside { (a : ℕ) → holds (true_places alone.old) a ≡ true → holds (true_places set.now) a ≡ true }
    ensures { Clears (true_places set.now) rule.now alone.old alone.new }
{
    let Some(atom) = first_true(rule.head.as_slice(), set) else {
        return;
    };
    if supports_alone(rule, set, atom) {
        write(alone, &[atom], false);
    }
}

/// The first true place, or none where all are false.
pub fn first_place(bits: &Bits) -> Option<u32>
    ensures { MatchOption result
        ((a : ℕ) → holds (true_places bits.now) a ≡ false)
        (λ a. holds (true_places bits.now) a ≡ true) }
{
    for place in 0..bits.len() {
        if bits.get(place) {
            return Some(place);
        }
    }
    None
}

/// An atom of the part that no rule supports alone in `set`, or none where each has such a rule.
pub fn unsupported(
    alloc: Global,
    rules: &[GroundRule],
    set: &Bits,
    part: &Bits,
) -> Result<Option<u32>, NoMemory>
    requires below { IsTrue (list_all (is_rule_below (length set.now)) rules.now) }
    requires inside { (a : ℕ) → holds (true_places part.now) a ≡ true → holds (true_places set.now) a ≡ true }
    ensures { IfOk result (λ found. MatchOption found
        ((a : ℕ) → holds (true_places part.now) a ≡ true → is_unfounded rules.now (true_places set.now) (a ∷ []) ≡ false)
        (λ a. (holds (true_places part.now) a ≡ true) × (is_unfounded rules.now (true_places set.now) (a ∷ []) ≡ true))) }
{
    let mut alone = part.copy(alloc)?;
    for rule in rules {
        clear_supported(&mut alone, rule, set);
    }
    Ok(first_place(&alone))
}
