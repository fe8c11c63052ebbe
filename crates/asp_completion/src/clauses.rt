//! Clauses of rules and of literals.
ghost use Rattle.std.specs.Prelude.{◌≡◌, ◌++◌, [], true, length, map, OnOk, OnErr};
ghost use Rattle.asp_defs.specs.Interpretations.{holds};
ghost use Rattle.asp_defs.specs.declared.ground.Lit.{Lit};
ghost use Rattle.asp_defs.specs.Lists.{IsIn};
ghost use Rattle.asp_defs.specs.Games.{within, rule_atoms};
ghost use Rattle.asp_completion.specs.Codes.{code as code_of, codes as codes_of, literal as literal_of, rule_literals};
ghost use Rattle.asp_completion.specs.Levels.{game_at, upper, rules_at, IsLevel};
ghost use Rattle.asp_completion.specs.Meanings.{HasRule, AddsTo, AddsLooselyTo};
ghost use Rattle.asp_completion.specs.Says.{Extends};
ghost use Rattle.asp_defs.specs.Truth.{is_model};

use crate::level::Level;
use asp_defs::{GroundRule, Lit, NoMemory};
use asp_search::Search;
use std::alloc::Global;

/// Appends the code of one literal of each atom.
fn push_atoms(
    level: &Level,
    atoms: &[u32],
    positive: bool,
    clause: &mut Vec<u32>,
) -> Result<(), NoMemory>
    requires ready { IsLevel level.now }
    requires inside { within atoms.now (upper level.now) ≡ true }
    ensures { OnOk result (clause.new.items
        ≡ clause.old.items ++ map (λ a. code_of (upper level.now) (literal_of positive a)) atoms.now) }
{
    for atom in atoms {
        let literal = Lit {
            atom: *atom,
            positive,
        };
        clause.push(level.code(literal))?;
    }
    Ok(())
}

/// Appends the codes of literals.
pub fn push_literals(level: &Level, literals: &[Lit], clause: &mut Vec<u32>) -> Result<(), NoMemory>
    requires ready { IsLevel level.now }
    requires inside { (l : Lit) → IsIn l literals.now → holds (upper level.now) l.atom ≡ true }
    ensures { OnOk result (clause.new.items ≡ clause.old.items ++ codes_of (upper level.now) literals.now) }
{
    for literal in literals {
        clause.push(level.code(*literal))?;
    }
    Ok(())
}

/// Makes the clause that of a rule: an atom of the head is true, or one of the positive body is false, or one of the
/// negative body is true.
fn write_rule(level: &Level, rule: &GroundRule, clause: &mut Vec<u32>) -> Result<(), NoMemory>
    requires ready { IsLevel level.now }
    requires inside { within (rule_atoms rule.now) (upper level.now) ≡ true }
    ensures { OnOk result (clause.new.items ≡ codes_of (upper level.now) (rule_literals rule.now)) }
{
    clause.clear();
    push_atoms(level, rule.head.as_slice(), true, clause)?;
    push_atoms(level, rule.pos.as_slice(), false, clause)?;
    push_atoms(level, rule.neg.as_slice(), true, clause)
}

/// Adds the clause of a rule, and none where it is a choice.
fn add_rule(
    alloc: Global,
    level: &Level,
    rule: &GroundRule,
    clause: &mut Vec<u32>,
    search: &mut Search,
) -> Result<(), NoMemory>
    requires ready { IsLevel level.now }
    requires inside { within (rule_atoms rule.now) (upper level.now) ≡ true }
    requires atoms { search.old.atoms ≡ length (upper level.now) }
    ensures { OnOk result (HasRule (upper level.now) rule.now search.old search.new) }
{
    if rule.choice {
        return Ok(());
    }
    write_rule(level, rule, clause)?;
    search.add(alloc, clause.as_slice())
}

/// Adds a clause for each rule of the level that is no choice to a search without clauses. They are satisfied exactly where the
/// interpretation satisfies the level's rules.
pub fn add_rules(alloc: Global, level: &Level, search: &mut Search) -> Result<(), NoMemory>
    requires ready { IsLevel level.now }
    requires atoms { search.old.atoms ≡ length (upper level.now) }
    requires none { search.old.clauses ≡ [] }
    requires no_firm { search.old.firm ≡ [] }
    ensures { OnOk result (Extends (game_at level.now) level.now.number (rules_at level.now)
        (λ N. is_model N (rules_at level.now) ≡ true) search.old search.new) }
{
    let rules = level.rules();
    let mut clause = Vec::new(alloc);
    for rule in rules {
        add_rule(alloc, level, rule, &mut clause, search)?;
    }
    Ok(())
}

/// Adds literals as a clause that holds until the next question.
pub fn add_loosely(
    alloc: Global,
    level: &Level,
    literals: &[Lit],
    search: &mut Search,
) -> Result<(), NoMemory>
    requires ready { IsLevel level.now }
    requires atoms { search.old.atoms ≡ length (upper level.now) }
    requires inside { (l : Lit) → IsIn l literals.now → holds (upper level.now) l.atom ≡ true }
    ensures added { OnOk result (AddsLooselyTo search.old search.new (codes_of (upper level.now) literals.now)) }
    ensures unchanged { OnErr result (search.new ≡ search.old) }
{
    let mut clause = Vec::new(alloc);
    push_literals(level, literals, &mut clause)?;
    search.add_loose(alloc, clause.as_slice())
}

/// Adds literals as a clause, written into `codes`.
pub fn add_clause(
    alloc: Global,
    level: &Level,
    literals: &[Lit],
    codes: &mut Vec<u32>,
    search: &mut Search,
) -> Result<(), NoMemory>
    requires ready { IsLevel level.now }
    requires atoms { search.old.atoms ≡ length (upper level.now) }
    requires inside { (l : Lit) → IsIn l literals.now → holds (upper level.now) l.atom ≡ true }
    ensures added { OnOk result (AddsTo search.old search.new (codes_of (upper level.now) literals.now)) }
    ensures unchanged { OnErr result (search.new ≡ search.old) }
{
    codes.clear();
    push_literals(level, literals, codes)?;
    search.add(alloc, codes.as_slice())
}

/// Adds literals as a clause.
pub fn add_literals(
    alloc: Global,
    level: &Level,
    literals: &[Lit],
    search: &mut Search,
) -> Result<(), NoMemory>
    requires ready { IsLevel level.now }
    requires atoms { search.old.atoms ≡ length (upper level.now) }
    requires inside { (l : Lit) → IsIn l literals.now → holds (upper level.now) l.atom ≡ true }
    ensures added { OnOk result (AddsTo search.old search.new (codes_of (upper level.now) literals.now)) }
    ensures unchanged { OnErr result (search.new ≡ search.old) }
{
    let mut codes = Vec::new(alloc);
    add_clause(alloc, level, literals, &mut codes, search)
}
