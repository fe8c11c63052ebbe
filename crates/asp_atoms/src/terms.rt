//! The rules of the levels, and the terms that are written in rules.
ghost use Rattle.std.specs.Prelude.{◌≡◌, ◌++◌, map, IfOk, OnOk};
ghost use Rattle.std.specs.List.{flat_map};
ghost use Rattle.asp_defs.specs.Constants.{level_rules};
ghost use Rattle.asp_walk.specs.Written.{rule_terms};

use asp_defs::{NoMemory, Program, Rule, Term};
use asp_walk::Terms;
use std::alloc::Global;

/// The rules of the levels, and last those of the constraint part.
pub fn level_rules(alloc: Global, program: &Program) -> Result<Vec<&[Rule]>, NoMemory>
    ensures { IfOk result (λ levels. map (λ l. l.now) levels.items ≡ level_rules program.now) }
{
    let mut levels = Vec::new(alloc);
    let parts = program.levels.as_slice();
    for part in parts {
        levels.push(part.rules.as_slice())?;
    }
    levels.push(program.cons.as_slice())?;
    Ok(levels)
}

/// Adds the terms of a rule.
fn add_rule<'a>(out: &mut Vec<&'a Term>, rule: &'a Rule) -> Result<(), NoMemory>
    ensures { OnOk result (map (λ t. t.now) out.new.items ≡ map (λ t. t.now) out.old.items ++ rule_terms rule.now) }
{
    for term in Terms::of_rule(rule) {
        out.push(term)?;
    }
    Ok(())
}

/// The terms of rules, in the order in which they are written.
pub fn terms(alloc: Global, rules: &[Rule]) -> Result<Vec<&Term>, NoMemory>
    ensures { IfOk result (λ terms. map (λ t. t.now) terms.items ≡ flat_map rule_terms rules.now) }
{
    let mut terms = Vec::new(alloc);
    for rule in rules {
        add_rule(&mut terms, rule)?;
    }
    Ok(terms)
}
