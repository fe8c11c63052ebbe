//! Rules in an interpretation: which of their atoms are true, the truth of their bodies, whether they are satisfied, and
//! their reduct.
//!
//! An interpretation is a [`Bits`] with a place for each atom. Contracts see it as the ascending list of its true places,
//! which is what the definitions speak of. Only `reduct` takes memory.
#![tactic(auto)]

ghost use Rattle.std.specs.Prelude.{◌≡◌, IsTrue, IfOk, length};
ghost use Rattle.std.specs.List.{list_all};
ghost use Rattle.asp_bits.specs.Places.{true_places};
ghost use Rattle.asp_defs.specs.Truth.{body_true as is_body_true, satisfies as is_satisfied};
ghost use Rattle.asp_defs.specs.Reduct.{stays as is_kept, positive_part as positive_part_of, reduct as reduct_of};
ghost use Rattle.asp_reduct.specs.Bounds.{is_rule_below};

mod atoms;
pub mod laws;

use crate::atoms::{all_true, none_true};
use asp_bits::Bits;
use asp_defs::{GroundRule, List, NoMemory};
pub use atoms::{any_true, first_false, first_true};
use std::alloc::Global;

/// Whether the body is true: each atom of the positive body is, and none of the negative body.
pub fn body_true(rule: &GroundRule, set: &Bits) -> bool
    requires { IsTrue (is_rule_below (length set.now) rule.now) }
    ensures { result ≡ is_body_true (true_places set.now) rule.now }
{
    all_true(rule.pos.as_slice(), set) && none_true(rule.neg.as_slice(), set)
}

/// Whether the rule is satisfied: its body is false or an atom of its head is true. A choice always is.
pub fn satisfies(rule: &GroundRule, set: &Bits) -> bool
    requires { IsTrue (is_rule_below (length set.now) rule.now) }
    ensures { result ≡ is_satisfied (true_places set.now) rule.now }
{
    rule.choice || !body_true(rule, set) || any_true(rule.head.as_slice(), set)
}

/// Whether the reduct has a rule for this one: no atom of the negative body is true and, where it is a choice, its head is.
fn stays(rule: &GroundRule, set: &Bits) -> bool
    requires { IsTrue (is_rule_below (length set.now) rule.now) }
    ensures { result ≡ is_kept (true_places set.now) rule.now }
{
    none_true(rule.neg.as_slice(), set) && (!rule.choice || any_true(rule.head.as_slice(), set))
}

/// The rule without its negative body, a choice made a plain rule.
fn positive_part(alloc: Global, rule: &GroundRule) -> Result<GroundRule, NoMemory>
    ensures { IfOk result (λ part. part ≡ positive_part_of rule.now) }
{
    Ok(GroundRule {
        choice: false,
        head: List::from_slice(alloc, rule.head.as_slice())?,
        pos: List::from_slice(alloc, rule.pos.as_slice())?,
        neg: List::new(alloc),
    })
}

/// The reduct of the rules under an interpretation (Gelfond and Lifschitz 1991), in the order of the rules.
///
/// A rule stays where no atom of its negative body is true, and loses its negative body. A choice stays where also its
/// head atom is true, and becomes a plain rule. `NoMemory`: memory was refused.
pub fn reduct(alloc: Global, rules: &[GroundRule], set: &Bits) -> Result<List<GroundRule>, NoMemory>
    requires { IsTrue (list_all (is_rule_below (length set.now)) rules.now) }
    ensures { IfOk result (λ parts. parts ≡ reduct_of rules.now (true_places set.now)) }
{
    let mut parts = List::new(alloc);
    for rule in rules {
        if stays(rule, set) {
            let part = positive_part(alloc, rule)?;
            parts.push(part)?;
        }
    }
    Ok(parts)
}
