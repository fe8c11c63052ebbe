//! The checks of a program.
ghost use Rattle.std.specs.Prelude.{◌≡◌, ◌+◌, ◌++◌, ◌<◌, ◌^◌, None, map, length, IfOk, IfErr, OnOk};
ghost use Rattle.asp_defs.specs.Safety.{all_rules, first_unsafe_from, shown_number};
ghost use Rattle.asp_defs.specs.ConstraintPart.{first_headed_from, headed_in};
ghost use Rattle.asp_defs.specs.Limits.{too_large_in};
ghost use Rattle.asp_defs.specs.Checks.{check_refusal};
ghost use Rattle.asp_checked.specs.Condition.{IsCheckable};
ghost use Rattle.asp_check.specs.Refusals.{IsRefusal};

use crate::counts::{most_arguments, most_literals, most_variables};
use asp_checked::Checked;
use asp_defs::{NoMemory, Program, Rule, Var, Which};
use asp_safety::{first_unsafe, shown};
use std::alloc::{AllocError, Global};
use thiserror::Error;

/// Why a program is refused. Rules are numbered from 1 through the whole text, the constraint part included; a greater
/// number than 4,294,967,295 is shown as that.
#[derive(Debug, Drop, Error)]
pub enum CheckFault {
    /// The rule with that number is the first one with an unsafe variable, and this is the first one in it.
    #[error("unsafe variable in rule {0}")]
    Unsafe(u32, Var),
    /// The rule with that number is the first one of the constraint part that has a head.
    #[error("not a constraint: rule {0}")]
    NotConstraint(u32),
    /// More than a limit allows were counted, at most 10^18.
    #[error("too large: {1}")]
    TooLarge(Which, u64),
    /// Memory ran out while the program was checked.
    #[error("out of memory")]
    NoMemory,
}

impl From<AllocError> for CheckFault {
    ghost use Rattle.std.specs.Prelude.{◌≡◌};
    ghost use Rattle.asp_check.specs.declared.checks.CheckFault.TheVariants.{NoMemory};

    ghost from_gives = { λ _ fault. fault ≡ NoMemory };

    fn from(_: AllocError) -> CheckFault {
        CheckFault::NoMemory
    }
}

/// A number as refusals show it.
fn shown_number(number: u64) -> u32
    ensures { result ≡ shown_number number }
{
    number.min(u32::MAX as u64) as u32
}

/// Adds the rules of a list.
fn add_rules<'a>(out: &mut Vec<&'a Rule>, rules: &'a [Rule]) -> Result<(), NoMemory>
    ensures { OnOk result (map (λ r. r.now) out.new.items ≡ map (λ r. r.now) out.old.items ++ rules.now) }
{
    for rule in rules {
        out.push(rule)?;
    }
    Ok(())
}

/// The rules of a program through its levels and its constraint part.
fn all_rules(alloc: Global, program: &Program) -> Result<Vec<&Rule>, NoMemory>
    ensures { IfOk result (λ rules. map (λ r. r.now) rules.items ≡ all_rules program.now) }
{
    let mut rules = Vec::new(alloc);
    let levels = program.levels.as_slice();
    for level in levels {
        add_rules(&mut rules, level.rules.as_slice())?;
    }
    add_rules(&mut rules, program.cons.as_slice())?;
    Ok(rules)
}

/// The first unsafe rule and its first unsafe variable.
fn unsafe_in(alloc: Global, rules: &[&Rule]) -> Result<Option<(u32, Var)>, NoMemory>
    ensures { IfOk result (λ found. found ≡ first_unsafe_from 1 (map (λ r. r.now) rules.now)) }
{
    for (at, rule) in rules.iter().enumerate() {
        if let Some(variable) = first_unsafe(alloc, rule)? {
            let variable = shown(alloc, variable)?;
            return Ok(Some((shown_number(at as u64 + 1), variable)));
        }
    }
    Ok(None)
}

/// The first rule that isn't a constraint, by its number behind so many other rules.
fn first_headed(before: usize, rules: &[Rule]) -> Option<u32>
    requires { before + length rules.now < 2 ^ 63 }
    ensures { result ≡ first_headed_from (before + 1) rules.now }
{
    for (at, rule) in rules.iter().enumerate() {
        if !rule.is_constraint() {
            return Some(shown_number((before + at) as u64 + 1));
        }
    }
    None
}

/// The first rule of the constraint part that isn't a constraint, where all rules are at hand.
fn headed_in(program: &Program, rules: &[&Rule]) -> Option<u32>
    requires { map (λ r. r.now) rules.now ≡ all_rules program.now }
    ensures { result ≡ headed_in program.now }
{
    let cons = program.cons.as_slice();
    first_headed(rules.len() - cons.len(), cons)
}

/// The first limit that is passed, with the count.
fn too_large_in(
    alloc: Global,
    program: &Program,
    rules: &[&Rule],
) -> Result<Option<(Which, u64)>, NoMemory>
    requires { map (λ r. r.now) rules.now ≡ all_rules program.now }
    ensures { IfOk result (λ found. found ≡ too_large_in program.now) }
{
    if let Some(found) = Which::Levels.past_limit(program.levels.len() as u64) {
        return Ok(Some(found));
    }
    if let Some(found) = Which::Arguments.past_limit(most_arguments(rules)) {
        return Ok(Some(found));
    }
    if let Some(found) = Which::Literals.past_limit(most_literals(rules)) {
        return Ok(Some(found));
    }
    Ok(Which::Variables.past_limit(most_variables(alloc, rules)?))
}

/// Judges a program: an error is its first refusal.
pub(crate) fn judge(alloc: Global, program: &Program) -> Result<(), CheckFault>
    ensures passes { OnOk result (check_refusal program.now ≡ None) }
    ensures refused { IfErr result (IsRefusal program.now) }
{
    let rules = all_rules(alloc, program)?;
    if let Some((number, variable)) = unsafe_in(alloc, rules.as_slice())? {
        return Err(CheckFault::Unsafe(number, variable));
    }
    if let Some(number) = headed_in(program, rules.as_slice()) {
        return Err(CheckFault::NotConstraint(number));
    }
    match too_large_in(alloc, program, rules.as_slice())? {
        Some((which, count)) => Err(CheckFault::TooLarge(which, count)),
        None => Ok(()),
    }
}

/// Checks a program, which stands in the answer as it was given. On a refusal it is given up.
///
/// # Errors
///
/// The program's first refusal: for the safety of its rules, then for the form of its constraint part, then for its
/// size. `NoMemory` where memory runs out.
pub fn check(alloc: Global, program: Program) -> Result<Checked, CheckFault>
    requires { IsCheckable program }
    ensures program { IfOk result (λ checked. checked ≡ program) }
    ensures passes { OnOk result (check_refusal program ≡ None) }
    ensures refused { IfErr result (IsRefusal program) }
{
    judge(alloc, &program)?;
    Ok(Checked::new(program))
}
