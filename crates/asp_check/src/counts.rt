//! What the limits count.
ghost use Rattle.std.specs.Prelude.{◌≡◌, ◌+◌, map, max, length, IfOk};
ghost use Rattle.std.specs.List.{flat_map, sum_by};
ghost use Rattle.asp_defs.specs.Limits.{
  rule_atoms,
  rule_literals,
  variable_count,
  greatest,
};
ghost use Rattle.asp_check.specs.Counts.{arguments_with, capped};

use asp_defs::{Element, Head, NoMemory, Rule};
use asp_safety::{count_distinct, variables};
use asp_walk::{Atoms, Terms};
use std::alloc::Global;

/// The greatest of a count and those of the arguments of a rule's atoms.
fn rule_arguments(most: u64, rule: &Rule) -> u64
    ensures { result ≡ arguments_with most (rule_atoms rule.now) }
{
    let mut most = most;
    for atom in Atoms::of_rule(rule) {
        most = most.max(atom.args.len() as u64);
    }
    most
}

/// The greatest count of an atom's arguments in rules.
pub fn most_arguments(rules: &[&Rule]) -> u64
    ensures { result ≡ arguments_with 0 (flat_map rule_atoms (map (λ r. r.now) rules.now)) }
{
    let mut most = 0;
    for rule in rules {
        most = rule_arguments(most, rule);
    }
    most
}

/// How many literals the elements of a choice have.
fn elements_literals(elements: &[Element]) -> u64
    ensures { result ≡ capped (sum_by (λ e. 1 + length e.cond) elements.now) }
{
    let mut count = 0_u64;
    for element in elements {
        count = count
            .saturating_add(1)
            .saturating_add(element.cond.len() as u64);
    }
    count
}

/// How many literals a rule has.
fn rule_literals(rule: &Rule) -> u64
    ensures { result ≡ capped (rule_literals rule.now) }
{
    let head = match &rule.head {
        Head::Disj(atoms) => atoms.len() as u64,
        Head::Choice(_, elements, _) => elements_literals(elements.as_slice()),
    };
    head.saturating_add(rule.body.len() as u64)
}

/// The greatest count of a rule's literals.
pub fn most_literals(rules: &[&Rule]) -> u64
    ensures { result ≡ capped (greatest (map rule_literals (map (λ r. r.now) rules.now))) }
{
    let mut most = 0_u64;
    for rule in rules {
        most = most.max(rule_literals(rule));
    }
    most
}

/// The greater of a count and that of a rule's variables, which aren't told apart where no more than the count are
/// written.
fn rule_variables(alloc: Global, most: u64, rule: &Rule) -> Result<u64, NoMemory>
    ensures { IfOk result (λ greater. greater ≡ max most (variable_count rule.now)) }
{
    let written = variables(alloc, Terms::of_rule(rule))?;
    if written.len() as u64 <= most {
        return Ok(most);
    }
    let count = count_distinct(alloc, written.as_slice())?;
    Ok(most.max(count as u64))
}

/// The greatest count of a rule's variables.
pub fn most_variables(alloc: Global, rules: &[&Rule]) -> Result<u64, NoMemory>
    ensures { IfOk result (λ most. most ≡ greatest (map variable_count (map (λ r. r.now) rules.now))) }
{
    let mut most = 0_u64;
    for rule in rules {
        most = rule_variables(alloc, most, rule)?;
    }
    Ok(most)
}
