//! Clauses of the completion of a level's rules, those that need no further atom.
ghost use Rattle.std.specs.Prelude.{◌≡◌, true, length, OnOk};
ghost use Rattle.asp_defs.specs.Interpretations.{holds};
ghost use Rattle.asp_completion.specs.Chains.{AreLower, HasHeads, IsChain, rules_along};
ghost use Rattle.asp_completion.specs.Levels.{game_at, upper, lower, rules_at, IsLevel};
ghost use Rattle.asp_completion.specs.Completions.{HasRules, Completes, IsSoundChoice, OneIsTrue, IsSupported, AreSupported, IsCompleted};

use crate::bodies::{body_literal, body_size, contains, first, is_few, rest, shares};
use crate::clauses::add_clause;
use crate::heads::{Chain, Heads, find_heads, lower_table};
use crate::level::Level;
use asp_defs::{Lit, NoMemory};
use asp_search::Search;
use std::alloc::Global;

/// Adds that one of the clause's literals is true, or one of the bodies of a chain's rules: the clauses that have beside the
/// clause's literals one of each body. A literal stands in none of them twice, and the two literals of an atom don't stand in
/// one; where a literal of a body stands in the clause already, no further one of this body is needed.
fn distribute(
    alloc: Global,
    level: &Level,
    heads: &Heads,
    chain: Chain,
    clause: &mut Vec<Lit>,
    codes: &mut Vec<u32>,
    search: &mut Search,
) -> Result<(), NoMemory>
    requires ready { IsLevel level.now }
    requires rules { HasRules level.now search.old }
    requires chain { IsChain level.now heads.now chain }
    requires sound { IsSoundChoice (game_at level.now) level.now.number clause.old.items (rules_along level.now heads.now chain) }
    ensures added { OnOk result
        (Completes level.now (OneIsTrue clause.old.items (rules_along level.now heads.now chain)) search.old search.new) }
    ensures clause { OnOk result (clause.new.items ≡ clause.old.items) }
{
    if chain.count == 0 {
        return add_clause(alloc, level, clause.as_slice(), codes, search);
    }
    let rule = first(level, heads, chain);
    let others = rest(heads, chain);
    if shares(clause.as_slice(), rule) {
        return distribute(alloc, level, heads, others, clause, codes, search);
    }
    for place in 0..body_size(rule) {
        let literal = body_literal(rule, place);
        if !contains(clause.as_slice(), literal.atom, !literal.positive) {
            clause.push(literal)?;
            distribute(alloc, level, heads, others, clause, codes, search)?;
            clause.pop();
        }
    }
    Ok(())
}

/// Adds that an atom is false, or one of the bodies of the rules that head it is true, where the base below lacks it and few
/// rules head it.
fn add_atom(
    alloc: Global,
    level: &Level,
    heads: &Heads,
    below: &[bool],
    atom: u32,
    clause: &mut Vec<Lit>,
    codes: &mut Vec<u32>,
    search: &mut Search,
) -> Result<(), NoMemory>
    requires ready { IsLevel level.now }
    requires rules { HasRules level.now search.old }
    requires heads { HasHeads level.now heads.now }
    requires below { AreLower (lower level.now) (length (game_at level.now).bases.atoms) below.now }
    requires inside { holds (upper level.now) atom ≡ true }
    ensures { OnOk result (Completes level.now (IsSupported level.now atom) search.old search.new) }
{
    if below[atom as usize] {
        return Ok(());
    }
    let chain = heads.chains[atom as usize];
    if !is_few(level, heads, chain) {
        return Ok(());
    }
    clause.clear();
    clause.push(Lit {
        atom,
        positive: false,
    })?;
    distribute(alloc, level, heads, chain, clause, codes, search)
}

/// Adds it for each atom of the level's base.
fn add_atoms(
    alloc: Global,
    level: &Level,
    heads: &Heads,
    below: &[bool],
    search: &mut Search,
) -> Result<(), NoMemory>
    requires ready { IsLevel level.now }
    requires rules { HasRules level.now search.old }
    requires heads { HasHeads level.now heads.now }
    requires below { AreLower (lower level.now) (length (game_at level.now).bases.atoms) below.now }
    ensures { OnOk result (Completes level.now (AreSupported level.now (upper level.now)) search.old search.new) }
{
    let mut clause = Vec::new(alloc);
    let mut codes = Vec::new(alloc);
    let base = level.upper();
    for atom in base {
        add_atom(
            alloc,
            level,
            heads,
            below,
            *atom,
            &mut clause,
            &mut codes,
            search,
        )?;
    }
    Ok(())
}

/// Adds to the clauses of the level's rules those of their completion that need no further atom, of the atoms that the
/// base below lacks: an atom is false, or the body of one of the rules that head it is true. So an atom that no rule heads is
/// false, and the body of a rule that alone heads an atom follows from it. The bodies of several rules are distributed where
/// these are at most seven, with at most 64 clauses; of other atoms nothing is added. The new clauses are satisfied exactly
/// where the old ones are and the interpretation `IsCompleted`. It takes the time of the level's rules and of the atoms of the
/// game, and of what is added.
pub fn add_completion(alloc: Global, level: &Level, search: &mut Search) -> Result<(), NoMemory>
    requires ready { IsLevel level.now }
    requires rules { HasRules level.now search.old }
    ensures { OnOk result (Completes level.now
        (IsCompleted (lower level.now) (upper level.now) (rules_at level.now)) search.old search.new) }
{
    let heads = find_heads(alloc, level)?;
    let below = lower_table(alloc, level)?;
    add_atoms(alloc, level, &heads, below.as_slice(), search)
}
