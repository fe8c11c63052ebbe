// What is left of rules once some atoms are decided. There are two cubes: the sets that have all atoms of `set` and
// beside them only atoms of `rest`, and the candidates for a smaller model of such a set's reduct, which have all
// atoms of `small` and beside them only atoms of `loose`.
ghost use Rattle.std.specs.Prelude.{◌≡◌, true, [], None, Contains, IfOk, IfSome};
ghost use Rattle.std.specs.List.{list_any};
ghost use Rattle.asp_plain.specs.Cubes.{rule_atoms, is_bare, can_matter as can_matter_by, narrowed as narrowed_by, left_of, IsWhole};
ghost use Rattle.asp_plain.specs.Masks.{HaveSameMembers};

use crate::masks::{MaskedRule, drop_repeated};
use asp_defs::NoMemory;
use std::alloc::Global;

/// Up to this many rules repeated ones stay, since a sort costs more than they do.
const FEW: usize = 16;

/// Repeated rules go where the number of open atoms, those of both cubes added, is a multiple of this: a sort takes as
/// long as about ten passes over the rules, so that it pays once in a few decisions.
const SORTED_EACH: u32 = 4;

/// The atoms of the rule.
pub fn atoms(rule: &MaskedRule) -> u32
    ensures { result ≡ rule_atoms rule.now }
{
    rule.positive | rule.negative | rule.head
}

/// Whether the rule can still be broken. It is false only where each candidate satisfies what the reduct by any of the
/// sets has of the rule.
fn can_matter(rule: &MaskedRule, set: u32, small: u32, rest: u32, loose: u32) -> bool
    ensures { result ≡ can_matter_by rule.now set small rest loose }
{
    rule.negative & set == 0
        && !(rule.choice && rule.head & (set | rest) == 0)
        && rule.positive & (small | loose) == rule.positive
        && rule.head & small == 0
}

/// The rule, which can still be broken, without its decided atoms. A choice whose head may still be false in the set
/// keeps the head's atom while it is open in one of the cubes.
fn narrowed(rule: &MaskedRule, set: u32, rest: u32, loose: u32) -> MaskedRule
    ensures { result ≡ narrowed_by set rest loose rule.now }
{
    let choice = rule.choice && rule.head & set == 0;
    let heads = if choice { rest | loose } else { loose };
    MaskedRule {
        positive: rule.positive & loose,
        negative: rule.negative & rest,
        head: rule.head & heads,
        choice,
    }
}

/// Drops repeated rules, where there are many and the number of open atoms is one at which they go.
fn thin_out(rules: &mut Vec<MaskedRule>, rest: u32, loose: u32)
    ensures { HaveSameMembers rules.new.items rules.old.items }
{
    if rules.len() > FEW && (rest.count_ones() + loose.count_ones()) % SORTED_EACH == 0 {
        drop_repeated(rules);
    }
}

/// The rules that can still be broken, without their decided atoms; `None` where one of them has no atom left, since
/// each candidate breaks it.
pub fn rules_left(
    alloc: Global,
    rules: &[MaskedRule],
    set: u32,
    small: u32,
    rest: u32,
    loose: u32,
) -> Result<Option<Vec<MaskedRule>>, NoMemory>
    ensures broken { IfOk result (λ left. left ≡ None → list_any is_bare (left_of set small rest loose rules.now) ≡ true) }
    ensures whole { IfOk result (λ left. IfSome left (λ left. IsWhole left.items (left_of set small rest loose rules.now))) }
{
    let mut left = Vec::with_capacity(alloc, rules.len())?;
    for rule in rules {
        if can_matter(rule, set, small, rest, loose) {
            let narrow = narrowed(rule, set, rest, loose);
            if atoms(&narrow) == 0 {
                return Ok(None);
            }
            left.push(narrow)?;
        }
    }
    thin_out(&mut left, rest, loose);
    Ok(Some(left))
}

/// The first rule with the fewest atoms; `None` where there is no rule. The contract says only that it is one of the
/// rules: which one it is changes the order of decisions, and no answer.
pub fn shortest(rules: &[MaskedRule]) -> Option<MaskedRule>
    ensures none { result ≡ None → rules.now ≡ [] }
    ensures member { IfSome result (λ rule. Contains rules.now rule) }
{
    let mut shortest = *rules.first()?;
    let mut fewest = atoms(&shortest).count_ones();
    for rule in rules {
        let count = atoms(rule).count_ones();
        if count < fewest {
            shortest = *rule;
            fewest = count;
        }
    }
    Some(shortest)
}
