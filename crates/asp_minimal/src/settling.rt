//! The answer where it wants no search.

ghost use Rattle.std.specs.Prelude.{◌≡◌, ℕ, Bool, not, IsTrue, IfOk, IfSome, Some, List, length};
ghost use Rattle.std.specs.List.{list_all};
ghost use Rattle.asp_bits.specs.Places.{true_places};
ghost use Rattle.asp_defs.specs.Interpretations.{holds};
ghost use Rattle.asp_defs.specs.Unfounded.{supports as supports_part, is_unfounded as is_unfounded_part};
ghost use Rattle.asp_reduct.specs.Bounds.{are_below, is_rule_below};
ghost use Rattle.asp_minimal.specs.Settling.{AreFounded, RefutesPart};

use crate::alone::first_place;
use crate::clauses::is_within;
use crate::minimality::Minimality;
use asp_bits::Bits;
use asp_defs::{GroundRule, List, NoMemory};
use asp_least::{left_unfounded, part_with};
use asp_reduct::{any_true, body_true};
use std::alloc::Global;

/// Whether none of the atoms is in the part.
fn none_in(atoms: &[u32], part: &Bits) -> bool
    requires { IsTrue (are_below (length part.now) atoms.now) }
    ensures { result ≡ list_all (λ a. not (holds (true_places part.now) a)) atoms.now }
{
    !any_true(atoms, part)
}

/// Whether the rule supports the part from outside.
fn supports(rule: &GroundRule, set: &Bits, part: &Bits) -> bool
    requires below { IsTrue (is_rule_below (length set.now) rule.now) }
    requires same_length { length part.now ≡ length set.now }
    ensures { result ≡ supports_part (true_places set.now) (true_places part.now) rule.now }
{
    any_true(rule.head.as_slice(), part)
        && (body_true(rule, set)
            && (none_in(rule.pos.as_slice(), part) && is_within(rule.head.as_slice(), set, part)))
}

/// Whether no rule supports the part from outside.
fn is_unfounded(rules: &[GroundRule], set: &Bits, part: &Bits) -> bool
    requires below { IsTrue (list_all (is_rule_below (length set.now)) rules.now) }
    requires same_length { length part.now ≡ length set.now }
    ensures { result ≡ is_unfounded_part rules.now (true_places set.now) (true_places part.now) }
{
    for rule in rules {
        if supports(rule, set, part) {
            return false;
        }
    }
    true
}

/// The true places, ascending.
fn true_atoms(alloc: Global, bits: &Bits) -> Result<List<u32>, NoMemory>
    ensures { IfOk result (λ atoms. atoms ≡ true_places bits.now) }
{
    let mut atoms = Vec::new(alloc);
    for place in 0..bits.len() {
        if bits.get(place) {
            atoms.push(place)?;
        }
    }
    Ok(List::from_vec(atoms))
}

/// The part's atoms, where there are some and no rule supports them together.
fn refuting(
    alloc: Global,
    rules: &[GroundRule],
    set: &Bits,
    part: &Bits,
) -> Result<Option<List<u32>>, NoMemory>
    requires below { IsTrue (list_all (is_rule_below (length set.now)) rules.now) }
    requires same_length { length part.now ≡ length set.now }
    ensures { IfOk result (λ found. IfSome found (RefutesPart rules.now (true_places set.now) (true_places part.now))) }
{
    let Some(_) = first_place(part) else {
        return Ok(None);
    };
    if !is_unfounded(rules, set, part) {
        return Ok(None);
    }
    let atoms = true_atoms(alloc, part)?;
    Ok(Some(atoms))
}

/// Few of the atoms that are left, with this one, or else all of them, where no rule supports them together.
fn refuted(
    alloc: Global,
    rules: &[GroundRule],
    set: &Bits,
    left: &Bits,
    atom: u32,
) -> Result<Option<List<u32>>, NoMemory>
    requires below { IsTrue (list_all (is_rule_below (length set.now)) rules.now) }
    requires same_length { length left.now ≡ length set.now }
    ensures { IfOk result (λ found. IfSome found (RefutesPart rules.now (true_places set.now) (true_places left.now))) }
{
    let small = part_with(alloc, rules, set, left, atom)?;
    let few = refuting(alloc, rules, set, &small)?;
    match few {
        Some(atoms) => Ok(Some(atoms)),
        None => refuting(alloc, rules, set, left),
    }
}

/// Whether a set of the part's atoms is unfounded in `set`, as far as rules without another true head atom tell; none where a rule
/// with several decides. The unfounded set has few of the atoms that they don't found, if it can. The time is linear in the lengths
/// of the rules and of the set. `NoMemory`: memory was refused.
pub fn settled(
    alloc: Global,
    rules: &[GroundRule],
    set: &Bits,
    part: &Bits,
) -> Result<Option<Minimality>, NoMemory>
    requires below { IsTrue (list_all (is_rule_below (length set.now)) rules.now) }
    requires same_length { length part.now ≡ length set.now }
    ensures yes { IfOk result (λ answer. answer ≡ Some Minimality.Yes
        → AreFounded rules.now (true_places set.now) (true_places part.now)) }
    ensures no { IfOk result (λ answer. (u : List ℕ) → answer ≡ Some (Minimality.No u)
        → RefutesPart rules.now (true_places set.now) (true_places part.now) u) }
{
    let left = left_unfounded(alloc, rules, set, part)?;
    let Some(atom) = first_place(&left) else {
        return Ok(Some(Minimality::Yes));
    };
    let found = refuted(alloc, rules, set, &left, atom)?;
    match found {
        Some(atoms) => Ok(Some(Minimality::No(atoms))),
        None => Ok(None),
    }
}
