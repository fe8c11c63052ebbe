//! Clauses of the bounds without conditions that want at least one of their atoms, or at most one.
ghost use Rattle.std.specs.Prelude.{ℕ, ◌≡◌, ◌<◌, ◌≤◌, ◌++◌, min, true, false, map, OnOk};
ghost use Rattle.asp_defs.specs.Bounds.{is_at_least, is_at_most};
ghost use Rattle.asp_defs.specs.Lists.{IsIn};
ghost use Rattle.asp_completion.specs.Codes.{literal as literal_of};
ghost use Rattle.asp_completion.specs.Levels.{bounds_at, IsLevel};
ghost use Rattle.asp_completion.specs.Completions.{HasRules, Completes};
ghost use Rattle.asp_completion.specs.AtOnce.{atoms_of, is_free as is_free_of, is_plain as is_plain_of, wants_one as wants_one_of, wants_no_two as wants_no_two_of, body_denial, HasOne, AreNotBoth, NoneOfBoth, HasNoTwo, HaveOne, HaveNoTwo, pairs as pairs_in, pairs_of, AreMetAtOnce};

use crate::clauses::add_clause;
use crate::level::Level;
use asp_defs::{Bound, Counted, Lit, NoMemory};
use asp_search::Search;
use std::alloc::Global;

/// How many pairs of atoms are denied for a level, at most, each pair in both orders, and each atom with itself.
const MOST_PAIRS: usize = 20_000;

/// Whether no atom at all is enough.
fn is_none_enough(low: Option<i32>) -> bool
    ensures { result ≡ is_at_least low 0 }
{
    match low {
        Some(low) => low <= 0,
        None => true,
    }
}

/// Whether two atoms are not too many.
fn are_two_few(high: Option<i32>) -> bool
    ensures { result ≡ is_at_most high 2 }
{
    match high {
        Some(high) => high >= 2,
        None => true,
    }
}

/// Whether the term has no condition.
fn is_free(term: &Counted) -> bool
    ensures { result ≡ is_free_of term.now }
{
    term.pos.as_slice().len() == 0 && term.neg.as_slice().len() == 0
}

/// Whether no term of the bound has a condition.
fn is_plain(bound: &Bound) -> bool
    ensures { result ≡ is_plain_of bound.now }
{
    bound.counted.as_slice().iter().all(|term| is_free(term))
}

/// Whether the bound has no conditions and wants at least one of its atoms.
fn wants_one(bound: &Bound) -> bool
    ensures { result ≡ wants_one_of bound.now }
{
    is_plain(bound) && !is_none_enough(bound.low)
}

/// Whether the bound has no conditions and wants at most one of its atoms.
fn wants_no_two(bound: &Bound) -> bool
    ensures { result ≡ wants_no_two_of bound.now }
{
    is_plain(bound) && !are_two_few(bound.high)
}

/// Appends one literal of each atom.
fn push_atoms(atoms: &[u32], positive: bool, clause: &mut Vec<Lit>) -> Result<(), NoMemory>
    ensures { OnOk result (clause.new.items ≡ clause.old.items ++ map (literal_of positive) atoms.now) }
{
    for atom in atoms {
        clause.push(Lit {
            atom: *atom,
            positive,
        })?;
    }
    Ok(())
}

/// Appends the atoms of terms.
fn push_terms(terms: &[Counted], clause: &mut Vec<Lit>) -> Result<(), NoMemory>
    ensures { OnOk result (clause.new.items ≡ clause.old.items ++ map (λ c. literal_of true c.atom) terms.now) }
{
    for term in terms {
        clause.push(Lit {
            atom: term.atom,
            positive: true,
        })?;
    }
    Ok(())
}

/// Makes the clause the literals against the bound's body.
fn write_denial(bound: &Bound, clause: &mut Vec<Lit>) -> Result<(), NoMemory>
    ensures { OnOk result (clause.new.items ≡ body_denial bound.now) }
{
    clause.clear();
    push_atoms(bound.pos.as_slice(), false, clause)?;
    push_atoms(bound.neg.as_slice(), true, clause)
}

/// Adds that one of the bound's atoms is true where its body is.
fn add_one(
    alloc: Global,
    level: &Level,
    bound: &Bound,
    clause: &mut Vec<Lit>,
    codes: &mut Vec<u32>,
    search: &mut Search,
) -> Result<(), NoMemory>
    requires ready { IsLevel level.now }
    requires rules { HasRules level.now search.old }
    requires member { IsIn bound.now (bounds_at level.now) }
    requires wanted { wants_one_of bound.now ≡ true }
    ensures { OnOk result (Completes level.now (HasOne bound.now) search.old search.new) }
{
    write_denial(bound, clause)?;
    push_terms(bound.counted.as_slice(), clause)?;
    add_clause(alloc, level, clause.as_slice(), codes, search)
}

/// Adds it for each bound that wants one.
fn add_ones(
    alloc: Global,
    level: &Level,
    clause: &mut Vec<Lit>,
    codes: &mut Vec<u32>,
    search: &mut Search,
) -> Result<(), NoMemory>
    requires ready { IsLevel level.now }
    requires rules { HasRules level.now search.old }
    ensures { OnOk result (Completes level.now (HaveOne (bounds_at level.now)) search.old search.new) }
{
    let bounds = level.bounds();
    for bound in bounds {
        if wants_one(bound) {
            add_one(alloc, level, bound, clause, codes, search)?;
        }
    }
    Ok(())
}

/// Adds that two atoms aren't both true where the bound's body is, unless they are the same.
fn deny_pair(
    alloc: Global,
    level: &Level,
    bound: &Bound,
    first: u32,
    second: u32,
    clause: &mut Vec<Lit>,
    codes: &mut Vec<u32>,
    search: &mut Search,
) -> Result<(), NoMemory>
    requires ready { IsLevel level.now }
    requires rules { HasRules level.now search.old }
    requires member { IsIn bound.now (bounds_at level.now) }
    requires wanted { wants_no_two_of bound.now ≡ true }
    requires first { IsIn first (atoms_of bound.now.counted) }
    requires second { IsIn second (atoms_of bound.now.counted) }
    ensures { OnOk result (Completes level.now (AreNotBoth bound.now first second) search.old search.new) }
{
    if first == second {
        return Ok(());
    }
    write_denial(bound, clause)?;
    clause.push(Lit {
        atom: first,
        positive: false,
    })?;
    clause.push(Lit {
        atom: second,
        positive: false,
    })?;
    add_clause(alloc, level, clause.as_slice(), codes, search)
}

/// Adds it for an atom with each of some others.
fn deny_with(
    alloc: Global,
    level: &Level,
    bound: &Bound,
    first: u32,
    others: &[Counted],
    clause: &mut Vec<Lit>,
    codes: &mut Vec<u32>,
    search: &mut Search,
) -> Result<(), NoMemory>
    requires ready { IsLevel level.now }
    requires rules { HasRules level.now search.old }
    requires member { IsIn bound.now (bounds_at level.now) }
    requires wanted { wants_no_two_of bound.now ≡ true }
    requires first { IsIn first (atoms_of bound.now.counted) }
    requires others { (a : ℕ) → IsIn a (atoms_of others.now) → IsIn a (atoms_of bound.now.counted) }
    ensures { OnOk result (Completes level.now (NoneOfBoth bound.now first (atoms_of others.now)) search.old search.new) }
{
    for other in others {
        deny_pair(
            alloc, level, bound, first, other.atom, clause, codes, search,
        )?;
    }
    Ok(())
}

/// Adds it for each atom of the bound with each before it.
fn deny_pairs(
    alloc: Global,
    level: &Level,
    bound: &Bound,
    clause: &mut Vec<Lit>,
    codes: &mut Vec<u32>,
    search: &mut Search,
) -> Result<(), NoMemory>
    requires ready { IsLevel level.now }
    requires rules { HasRules level.now search.old }
    requires member { IsIn bound.now (bounds_at level.now) }
    requires wanted { wants_no_two_of bound.now ≡ true }
    ensures { OnOk result (Completes level.now (HasNoTwo bound.now (atoms_of bound.now.counted)) search.old search.new) }
{
    let terms = bound.counted.as_slice();
    for place in 0..terms.len() {
        let first = terms[place].atom;
        deny_with(
            alloc,
            level,
            bound,
            first,
            &terms[..place],
            clause,
            codes,
            search,
        )?;
    }
    Ok(())
}

/// How many pairs the bound has where it wants at most one, cut off behind the most.
fn count_pairs(bound: &Bound) -> usize
    ensures { result ≡ min 20001 (pairs_of bound.now) }
{
    if !wants_no_two(bound) {
        return 0;
    }
    let count = bound.counted.as_slice().len();
    count.saturating_mul(count).min(MOST_PAIRS + 1)
}

/// Whether the bounds have few pairs.
fn are_few(bounds: &[Bound]) -> bool
    ensures few { result ≡ true → pairs_in bounds.now ≤ 20000 }
    ensures many { result ≡ false → 20000 < pairs_in bounds.now }
{
    let mut count = 0;
    for bound in bounds {
        count = count_pairs(bound).saturating_add(count).min(MOST_PAIRS + 1);
    }
    count <= MOST_PAIRS
}

/// Adds for each bound that wants at most one atom that no two are true where its body is, if there are few pairs.
fn add_no_twos(
    alloc: Global,
    level: &Level,
    clause: &mut Vec<Lit>,
    codes: &mut Vec<u32>,
    search: &mut Search,
) -> Result<(), NoMemory>
    requires ready { IsLevel level.now }
    requires rules { HasRules level.now search.old }
    ensures { OnOk result (Completes level.now (HaveNoTwo (bounds_at level.now)) search.old search.new) }
{
    let bounds = level.bounds();
    for bound in bounds {
        if wants_no_two(bound) {
            deny_pairs(alloc, level, bound, clause, codes, search)?;
        }
    }
    Ok(())
}

/// Adds the clauses of the level's bounds that say at once what these want: of a bound none of whose terms has a condition, that one
/// of its atoms is true where its body is, if it wants at least one; and where there are few pairs, at most 10,000 or so, that no two
/// are, if it wants at most one. The new clauses are satisfied exactly where the old ones are and the interpretation meets these
/// (`AreMetAtOnce`). It takes the time of the bounds and of what is added.
pub fn add_bounds(alloc: Global, level: &Level, search: &mut Search) -> Result<(), NoMemory>
    requires ready { IsLevel level.now }
    requires rules { HasRules level.now search.old }
    ensures { OnOk result (Completes level.now (AreMetAtOnce (bounds_at level.now)) search.old search.new) }
{
    let mut clause = Vec::new(alloc);
    let mut codes = Vec::new(alloc);
    add_ones(alloc, level, &mut clause, &mut codes, search)?;
    if !are_few(level.bounds()) {
        return Ok(());
    }
    add_no_twos(alloc, level, &mut clause, &mut codes, search)
}
