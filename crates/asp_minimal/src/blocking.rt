//! The clauses that an unfounded set gives.

ghost use Rattle.std.specs.Prelude.{◌≡◌, ◌&&◌, true, false, not, length, map, replicate, IsTrue, IfOk, OnOk, MatchOption};
ghost use Rattle.std.specs.List.{list_any, list_all};
ghost use Rattle.asp_bits.specs.Places.{true_places};
ghost use Rattle.asp_defs.specs.Interpretations.{holds};
ghost use Rattle.asp_defs.specs.Games.{within};
ghost use Rattle.asp_defs.specs.Lists.{is_empty};
ghost use Rattle.asp_defs.specs.Unfounded.{supports, is_unfounded};
ghost use Rattle.asp_reduct.specs.Bounds.{is_rule_below};
ghost use Rattle.asp_minimal.specs.Nogoods.{denied, is_outer_true, IsNogood, IsAtomNogood, Blocks, BlocksAll, IsReason, IsOuterReason, IsChosen, IsOpen};
ghost use Rattle.asp_minimal.specs.Numbers.{written};

use crate::atoms::first_with;
use crate::numbers::write;
use asp_bits::Bits;
use asp_defs::{GroundRule, List, Lit, NoMemory};
use asp_reduct::{any_true, first_false, first_true};
use std::alloc::Global;

/// The literals that these atoms are false.
fn denials(alloc: Global, atoms: &[u32]) -> Result<Vec<Lit>, NoMemory>
    ensures { IfOk result (λ clause. clause.items ≡ map denied atoms.now) }
{
    let mut clause = Vec::new(alloc);
    for atom in atoms {
        clause.push(Lit {
            atom: *atom,
            positive: false,
        })?;
    }
    Ok(clause)
}

/// Whether the rule has a head atom in the part and no atom of its positive body there.
fn concerns(rule: &GroundRule, part: &Bits) -> bool
    requires { IsTrue (is_rule_below (length part.now) rule.now) }
    ensures { result ≡ (list_any (holds (true_places part.now)) rule.now.head
        && not (list_any (holds (true_places part.now)) rule.now.pos)) }
{
    any_true(rule.head.as_slice(), part) && !any_true(rule.pos.as_slice(), part)
}

/// The first reason that the rule doesn't support the part in `set`, as a literal that is false there: an atom of the positive body
/// is false, one of the negative body is true, or an atom of the head outside the part is true.
fn reason(rule: &GroundRule, set: &Bits, part: &Bits) -> Option<Lit>
    requires below { IsTrue (is_rule_below (length set.now) rule.now) }
    requires same_length { length part.now ≡ length set.now }
    ensures { MatchOption result
        (IsOpen (true_places set.now) (true_places part.now) rule.now)
        (IsReason (true_places set.now) (true_places part.now) rule.now) }
{
    if let Some(atom) = first_false(rule.pos.as_slice(), set) {
        return Some(Lit {
            atom,
            positive: true,
        });
    }
    if let Some(atom) = first_true(rule.neg.as_slice(), set) {
        return Some(Lit {
            atom,
            positive: false,
        });
    }
    if let Some(atom) = first_with(rule.head.as_slice(), set, part, false) {
        return Some(Lit {
            atom,
            positive: false,
        });
    }
    None
}

/// A false literal of the body whose atom is in `outer`, or none where each literal of such an atom is true.
fn outer_reason(rule: &GroundRule, set: &Bits, outer: &Bits) -> Option<Lit>
    requires below { IsTrue (is_rule_below (length outer.now) rule.now) }
    requires same_length { length set.now ≡ length outer.now }
    ensures { MatchOption result
        (is_outer_true (true_places set.now) (true_places outer.now) rule.now ≡ true)
        (IsOuterReason (true_places set.now) (true_places outer.now) rule.now) }
{
    if let Some(atom) = first_with(rule.pos.as_slice(), outer, set, false) {
        return Some(Lit {
            atom,
            positive: true,
        });
    }
    if let Some(atom) = first_with(rule.neg.as_slice(), outer, set, true) {
        return Some(Lit {
            atom,
            positive: false,
        });
    }
    None
}

/// A reason that the rule doesn't support the part in `set`: where a false literal of the body has an atom in `outer` such a
/// literal, else the first reason.
fn chosen_reason(rule: &GroundRule, set: &Bits, part: &Bits, outer: &Bits) -> Option<Lit>
    requires below { IsTrue (is_rule_below (length set.now) rule.now) }
    requires same_length { length part.now ≡ length set.now }
    requires outer_length { length outer.now ≡ length set.now }
    ensures { MatchOption result
        (IsOpen (true_places set.now) (true_places part.now) rule.now)
        (IsChosen (true_places set.now) (true_places part.now) (true_places outer.now) rule.now) }
{
    if let Some(lit) = outer_reason(rule, set, outer) {
        return Some(lit);
    }
    reason(rule, set, part)
}

/// Adds the chosen reason that the rule doesn't support the part in `set`; none where it never does.
fn add_reason(
    clause: &mut Vec<Lit>,
    rule: &GroundRule,
    set: &Bits,
    part: &Bits,
    outer: &Bits,
) -> Result<(), NoMemory>
    requires below { IsTrue (is_rule_below (length set.now) rule.now) }
    requires same_length { length part.now ≡ length set.now }
    requires outer_length { length outer.now ≡ length set.now }
    requires unfounded { supports (true_places set.now) (true_places part.now) rule.now ≡ false }
    ensures { OnOk result
        (Blocks (true_places set.now) (true_places part.now) (true_places outer.now) rule.now clause.old.items clause.new.items) }
{
    if !concerns(rule, part) {
        return Ok(());
    }
    let Some(lit) = chosen_reason(rule, set, part, outer) else {
        return Ok(());
    };
    clause.push(lit)?;
    Ok(())
}

/// The clause that one of these atoms is false, or that a rule which could support the part does what it doesn't do in `set`.
fn clause_denying(
    alloc: Global,
    rules: &[GroundRule],
    set: &Bits,
    part: &Bits,
    outer: &Bits,
    atoms: &[u32],
) -> Result<List<Lit>, NoMemory>
    requires below { IsTrue (list_all (is_rule_below (length set.now)) rules.now) }
    requires same_length { length part.now ≡ length set.now }
    requires outer_length { length outer.now ≡ length set.now }
    requires unfounded { is_unfounded rules.now (true_places set.now) (true_places part.now) ≡ true }
    ensures { IfOk result (λ clause. BlocksAll rules.now rules.now
        (true_places set.now) (true_places part.now) (true_places outer.now) (map denied atoms.now) clause) }
{
    let mut clause = denials(alloc, atoms)?;
    for rule in rules {
        add_reason(&mut clause, rule, set, part, outer)?;
    }
    Ok(List::from_vec(clause))
}

/// The interpretation in which these atoms alone are true.
fn interpretation(alloc: Global, len: u32, atoms: &[u32]) -> Result<Bits, NoMemory>
    ensures { IfOk result (λ bits. bits ≡ written true (replicate len false) atoms.now) }
{
    let mut bits = Bits::new(alloc, len)?;
    write(&mut bits, atoms, true);
    Ok(bits)
}

/// A clause that is false in `set` and true in every answer set of the rules, whatever atoms outside `unfounded` have a free
/// choice beside them. Each of its atoms is one of `unfounded` or stands in a rule.
///
/// It says that an atom of `unfounded` is false, or that a rule which could support it does what it doesn't do in `set`. The time is
/// linear in the lengths of the rules, of `unfounded` and of the set. `NoMemory`: memory was refused.
pub fn nogood(
    alloc: Global,
    rules: &[GroundRule],
    set: &Bits,
    unfounded: &List<u32>,
) -> Result<List<Lit>, NoMemory>
    requires below { IsTrue (list_all (is_rule_below (length set.now)) rules.now) }
    requires some { is_empty unfounded.now ≡ false }
    requires inside { within unfounded.now (true_places set.now) ≡ true }
    requires unfounded { is_unfounded rules.now (true_places set.now) unfounded.now ≡ true }
    ensures { IfOk result (λ clause. IsNogood rules.now (true_places set.now) unfounded.now clause) }
{
    let part = interpretation(alloc, set.len(), unfounded.as_slice())?;
    // A reason that the clause has already comes first.
    clause_denying(alloc, rules, set, &part, &part, unfounded.as_slice())
}

/// A nogood that denies `atom` alone in place of each atom of `unfounded`, with a reason for each rule that could support the set.
///
/// It is true in every answer set too: a rule that supports the part of `unfounded` which lies in the answer set supports the
/// whole set from outside. Of the literals of a rule's body that are false in `set`, one whose atom is in `outer` is the reason
/// where there is one. The time is as for [`nogood`]. `NoMemory`: memory was refused.
pub fn nogood_of_atom(
    alloc: Global,
    rules: &[GroundRule],
    set: &Bits,
    unfounded: &List<u32>,
    atom: u32,
    outer: &Bits,
) -> Result<List<Lit>, NoMemory>
    requires below { IsTrue (list_all (is_rule_below (length set.now)) rules.now) }
    requires member { holds unfounded.now atom ≡ true }
    requires inside { within unfounded.now (true_places set.now) ≡ true }
    requires unfounded { is_unfounded rules.now (true_places set.now) unfounded.now ≡ true }
    requires outer_length { length outer.now ≡ length set.now }
    ensures { IfOk result (λ clause.
        IsAtomNogood rules.now (true_places set.now) unfounded.now (true_places outer.now) atom clause) }
{
    let part = interpretation(alloc, set.len(), unfounded.as_slice())?;
    clause_denying(alloc, rules, set, &part, outer, &[atom])
}
