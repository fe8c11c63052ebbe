//! The clauses of a search for what could leave an interpretation.

ghost use Rattle.std.specs.Prelude.{◌≡◌, ◌<◌, ◌≤◌, ◌++◌, length, IsTrue, IfOk, OnOk};
ghost use Rattle.std.specs.List.{list_any, list_all};
ghost use Rattle.asp_bits.specs.Places.{true_places};
ghost use Rattle.asp_defs.specs.declared.faults.Which.TheVariants as which;
ghost use Rattle.asp_defs.specs.Limits.{limit};
ghost use Rattle.asp_reduct.specs.Bounds.{are_below, is_rule_below};
ghost use Rattle.asp_minimal.specs.Numbers.{AreNumbers, leaves};
ghost use Rattle.asp_minimal.specs.Demands.{literal_of, literals_at, clause_of, is_closed, binds as is_binding, allows, Demands};

use crate::atoms::first_with;
use crate::numbers::number_of;
use asp_bits::Bits;
use asp_defs::{GroundRule, NoMemory};
use asp_reduct::{any_true, body_true};
use asp_search::Search;
use std::alloc::Global;

/// The literal of a number, or its negation.
fn literal(number: u32, positive: bool) -> u32
    requires { number < limit which.Atoms }
    ensures { result ≡ literal_of positive number }
{
    if positive { 2 * number + 1 } else { 2 * number }
}

/// Adds the literals of those of the atoms that have numbers.
fn push_literals(
    clause: &mut Vec<u32>,
    atoms: &[u32],
    numbers: &[Option<u32>],
    positive: bool,
) -> Result<(), NoMemory>
    requires below { IsTrue (are_below (length numbers.now) atoms.now) }
    requires small { AreNumbers (limit which.Atoms) numbers.now }
    ensures { OnOk result (clause.new.items ≡ clause.old.items ++ literals_at positive numbers.now atoms.now) }
{
    for atom in atoms {
        if let Some(number) = number_of(numbers, *atom) {
            clause.push(literal(number, positive))?;
        }
    }
    Ok(())
}

/// Whether each true one of the atoms is in the part.
pub fn is_within(atoms: &[u32], set: &Bits, part: &Bits) -> bool
    requires below { IsTrue (are_below (length set.now) atoms.now) }
    requires same_length { length part.now ≡ length set.now }
    ensures { result ≡ is_closed (true_places set.now) (true_places part.now) atoms.now }
{
    first_with(atoms, set, part, false).is_none()
}

/// Whether the rule could support what leaves: its body is true, an atom of its head is, and all such atoms of its head are
/// among those that may leave.
fn binds(rule: &GroundRule, set: &Bits, part: &Bits) -> bool
    requires below { IsTrue (is_rule_below (length set.now) rule.now) }
    requires same_length { length part.now ≡ length set.now }
    ensures { result ≡ is_binding (true_places set.now) (true_places part.now) rule.now }
{
    body_true(rule, set)
        && (any_true(rule.head.as_slice(), set) && is_within(rule.head.as_slice(), set, part))
}

/// The clause of a rule: an atom of the positive body leaves, or one of the head stays.
fn clause(alloc: Global, rule: &GroundRule, numbers: &[Option<u32>]) -> Result<Vec<u32>, NoMemory>
    requires below { IsTrue (is_rule_below (length numbers.now) rule.now) }
    requires small { AreNumbers (limit which.Atoms) numbers.now }
    ensures { IfOk result (λ clause. clause.items ≡ clause_of numbers.now rule.now) }
{
    let mut clause = Vec::new(alloc);
    push_literals(&mut clause, rule.pos.as_slice(), numbers, false)?;
    push_literals(&mut clause, rule.head.as_slice(), numbers, true)?;
    Ok(clause)
}

/// Adds the clause of a rule that could support what leaves. `part` has the atoms that may leave.
fn add_rule(
    alloc: Global,
    search: &mut Search,
    rule: &GroundRule,
    set: &Bits,
    part: &Bits,
    numbers: &[Option<u32>],
) -> Result<(), NoMemory>
    requires below { IsTrue (is_rule_below (length set.now) rule.now) }
    requires same_length { length part.now ≡ length set.now }
    requires numbered { length numbers.now ≡ length set.now }
    requires numbers { AreNumbers search.old.atoms numbers.now }
    requires small { search.old.atoms ≤ limit which.Atoms }
    ensures { OnOk result (Demands search.old search.new
        (λ v. allows (true_places set.now) (true_places part.now) numbers.now v rule.now)) }
{
    if !binds(rule, set, part) {
        return Ok(());
    }
    let clause = clause(alloc, rule, numbers)?;
    search.add(alloc, clause.as_slice())
}

/// Adds the clauses of the rules that could support what leaves. `part` has the atoms that may leave.
pub fn add_rules(
    alloc: Global,
    search: &mut Search,
    rules: &[GroundRule],
    set: &Bits,
    part: &Bits,
    numbers: &[Option<u32>],
) -> Result<(), NoMemory>
    requires below { IsTrue (list_all (is_rule_below (length set.now)) rules.now) }
    requires same_length { length part.now ≡ length set.now }
    requires numbered { length numbers.now ≡ length set.now }
    requires numbers { AreNumbers search.old.atoms numbers.now }
    requires small { search.old.atoms ≤ limit which.Atoms }
    ensures { OnOk result (Demands search.old search.new
        (λ v. list_all (allows (true_places set.now) (true_places part.now) numbers.now v) rules.now)) }
{
    for rule in rules {
        add_rule(alloc, search, rule, set, part, numbers)?;
    }
    Ok(())
}

/// Adds the clause that some atom leaves.
pub fn add_leaving(
    alloc: Global,
    search: &mut Search,
    numbers: &[Option<u32>],
) -> Result<(), NoMemory>
    requires numbers { AreNumbers search.old.atoms numbers.now }
    requires small { search.old.atoms ≤ limit which.Atoms }
    ensures { OnOk result (Demands search.old search.new (λ v. list_any (leaves v) numbers.now)) }
{
    let mut clause = Vec::new(alloc);
    for number in numbers {
        if let Some(number) = number {
            clause.push(literal(*number, false))?;
        }
    }
    search.add(alloc, clause.as_slice())
}
