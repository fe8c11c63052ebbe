//! The game of a program.
ghost use Rattle.std.specs.Prelude.{◌≡◌, ◌≤◌, ◌+◌, None, map, IfOk, IfErr, OnOk};
ghost use Rattle.asp_defs.specs.Lists.{IsIn, numbers_from};
ghost use Rattle.asp_defs.specs.Bases.{Predicate, predicates, last_level, bases_of};
ghost use Rattle.asp_defs.specs.Games.{game_of};
ghost use Rattle.asp_defs.specs.Limits.{past_limit};
ghost use Rattle.asp_defs.specs.Sizes.{instance_total, game_too_large};
ghost use Rattle.asp_atoms.specs.Answers.{base_too_large};
ghost use Rattle.asp_atoms.specs.Vocabularies.{vocabulary_of};
ghost use Rattle.asp_template.specs.Ranks.{IsOrdered};
ghost use Rattle.asp_defs.specs.Consistency.{consistency_constraints};
ghost use Rattle.asp_ground.specs.BoundTemplates.{compiled_level_bounds};
ghost use Rattle.asp_ground.specs.Levels.{compiled_levels};
ghost use Rattle.asp_ground.specs.Faults.{IsInstanceFault, IsGameRefusal};

use crate::bounds::level_bounds;
use crate::consistency::constraints;
use crate::counts::instance_count;
use crate::level::level_rules;
use asp_atoms::{Vocabulary, program_signatures, vocabulary};
use asp_checked::Checked;
use asp_defs::{
    Bases, Bound, Game, GroundRule, List, NoMemory, Part, Program, Quant, Rule, SizeFault, Which,
};
use std::alloc::Global;

/// The quantifiers of levels.
fn quants(alloc: Global, levels: &[Part]) -> Result<List<Quant>, NoMemory>
    ensures { IfOk result (λ quants. quants ≡ map (λ part. part.quant) levels.now) }
{
    let mut quants = Vec::with_capacity(alloc, levels.len())?;
    for level in levels {
        quants.push(level.quant)?;
    }
    Ok(List::from_vec(quants))
}

/// The consistency constraints of the levels, and last those of the constraint part.
fn levels_constraints(alloc: Global, program: &Program) -> Result<Vec<List<Rule>>, NoMemory>
    requires short { (q : Predicate) → IsIn q (predicates program.now (last_level program.now)) → q.arity ≤ 16 }
    ensures { IfOk result (λ all. all.items ≡ map (consistency_constraints program.now) (numbers_from 0 (last_level program.now + 1))) }
{
    let signatures = program_signatures(alloc, program)?;
    let mut all = Vec::with_capacity(alloc, signatures.len())?;
    for predicates in signatures.as_slice() {
        all.push(constraints(alloc, predicates.as_slice())?)?;
    }
    Ok(all)
}

/// The instances of the rules of all levels, and last those of the constraint part, with those of their consistency
/// constraints.
fn levels_rules(
    alloc: Global,
    vocabulary: &Vocabulary,
    program: &Program,
) -> Result<List<List<GroundRule>>, NoMemory>
    requires ordered { IsOrdered vocabulary.now }
    requires short { (q : Predicate) → IsIn q (predicates program.now (last_level program.now)) → q.arity ≤ 16 }
    ensures { IfOk result (λ rules. rules ≡ compiled_levels vocabulary.now program.now) }
{
    let constraints = levels_constraints(alloc, program)?;
    let levels = program.levels.as_slice();
    let mut rules = Vec::with_capacity(alloc, levels.len() + 1)?;
    for (place, level) in levels.iter().enumerate() {
        let own = level.rules.as_slice();
        let more = constraints[place + 1].as_slice();
        rules.push(level_rules(alloc, vocabulary, place + 1, own, more)?)?;
    }
    let own = program.cons.as_slice();
    let last = constraints[levels.len() + 1].as_slice();
    rules.push(level_rules(alloc, vocabulary, levels.len() + 1, own, last)?)?;
    Ok(List::from_vec(rules))
}

/// The ground bounds of the rules of all levels, and last those of the constraint part.
fn levels_bounds(
    alloc: Global,
    vocabulary: &Vocabulary,
    program: &Program,
) -> Result<List<List<Bound>>, NoMemory>
    requires { IsOrdered vocabulary.now }
    ensures { IfOk result (λ bounds. bounds ≡ compiled_level_bounds vocabulary.now program.now) }
{
    let levels = program.levels.as_slice();
    let mut bounds = Vec::with_capacity(alloc, levels.len() + 1)?;
    for (place, level) in levels.iter().enumerate() {
        bounds.push(level_bounds(alloc, vocabulary, place + 1, level.rules.as_slice())?)?;
    }
    bounds.push(level_bounds(alloc, vocabulary, levels.len() + 1, program.cons.as_slice())?)?;
    Ok(List::from_vec(bounds))
}

/// The vocabulary of a program whose game keeps the limits. Atoms and instances are counted, and none is made.
///
/// # Errors
///
/// `TooLarge` with the first of the constants, the atoms and the instances that pass their limit; `NoMemory` where
/// memory runs out.
pub fn measure(alloc: Global, checked: &Checked) -> Result<Vocabulary, SizeFault>
    ensures known { IfOk result (λ vocabulary. vocabulary ≡ vocabulary_of checked.now) }
    ensures small { OnOk result (game_too_large checked.now ≡ None) }
    ensures refused { IfErr result (IsGameRefusal checked.now) }
{
    let vocabulary = vocabulary(alloc, checked)?;
    match Which::Instances.past_limit(instance_count(checked, &vocabulary)) {
        Some((which, count)) => Err(SizeFault::TooLarge(which, count)),
        None => Ok(vocabulary),
    }
}

/// The game of a program whose vocabulary is known and whose game keeps the limits: all instances of all its rules, its
/// consistency constraints behind those of each level, and its ground bounds. An instance whose comparisons are false is
/// left out, and true comparisons are removed.
///
/// The bases are those that `bases` answered of the program. The time is linear in the instances and their literals. An
/// instance takes 80 bytes, and each of its literals 4; a counted term of a bound takes 56 bytes.
///
/// # Errors
///
/// Memory ran out.
pub fn instantiate(
    alloc: Global,
    checked: &Checked,
    bases: Bases,
    vocabulary: &Vocabulary,
) -> Result<Game, NoMemory>
    requires bases { bases ≡ bases_of checked.now }
    requires known { vocabulary.now ≡ vocabulary_of checked.now }
    requires small { game_too_large checked.now ≡ None }
    ensures { IfOk result (λ game. game ≡ game_of checked.now) }
{
    let program = checked.program();
    let rules = levels_rules(alloc, vocabulary, program)?;
    let bounds = levels_bounds(alloc, vocabulary, program)?;
    let quants = quants(alloc, program.levels.as_slice())?;
    Ok(Game {
        quants,
        bases,
        rules,
        bounds,
    })
}

/// The game of a program, as `instantiate` says. The bases are those that `bases` answered of the program.
///
/// # Errors
///
/// `TooLarge` where the program has more than 4,000,000 instances, counted before comparisons are looked at. `NoMemory`
/// where memory runs out.
pub fn ground(alloc: Global, checked: &Checked, bases: Bases) -> Result<Game, SizeFault>
    requires bases { bases ≡ bases_of checked.now }
    requires small { base_too_large checked.now ≡ None }
    ensures game { IfOk result (λ game. game ≡ game_of checked.now) }
    ensures small { OnOk result (past_limit Which.Instances (instance_total checked.now) ≡ None) }
    ensures refused { IfErr result (IsInstanceFault checked.now) }
{
    let vocabulary = measure(alloc, checked)?;
    Ok(instantiate(alloc, checked, bases, &vocabulary)?)
}
