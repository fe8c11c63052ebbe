//! The consistency constraints of levels: that an atom and its strong negation aren't both true.
ghost use Rattle.std.specs.Prelude.{◌≡◌, ◌≤◌, nat_le, map, IsTrue, IfOk};
ghost use Rattle.std.specs.List.{list_all};
ghost use Rattle.std.specs.Ordering.{nat_cmp};
ghost use Rattle.std.specs.Cmp.Lexicographic.{slice_cmp};
ghost use Rattle.asp_defs.specs.declared.syntax.Literal.TheVariants.{Pos};
ghost use Rattle.asp_defs.specs.declared.syntax.Term.TheVariants.{Anon};
ghost use Rattle.asp_defs.specs.Lists.{numbers_from};
ghost use Rattle.asp_defs.specs.Bases.{predicate_cmp};
ghost use Rattle.asp_defs.specs.Consistency.{negated_name, negated, contradicted, general_atom, consistency_constraint};
ghost use Rattle.asp_atoms.specs.Ascending.{Ascends};
ghost use Rattle.asp_atoms.specs.Signatures.{predicate_of, predicates_of};

use asp_atoms::Signature;
use asp_defs::{Atom, Head, List, Literal, Name, NoMemory, Rule, Term};
use std::alloc::Global;
use std::cmp::Ordering;

/// How the negation of a name compares with another name.
fn compare_negated_name(name: &[u8], other: &[u8]) -> Ordering
    ensures { result ≡ slice_cmp nat_cmp (negated_name name.now) other.now }
{
    let Some((first, rest)) = other.split_first() else {
        return Ordering::Greater;
    };
    match b'-'.cmp(first) {
        Ordering::Less => Ordering::Less,
        Ordering::Equal => name.cmp(rest),
        Ordering::Greater => Ordering::Greater,
    }
}

/// How the negation of a predicate compares with another predicate.
fn compare_negated(signature: &Signature<'_>, other: &Signature<'_>) -> Ordering
    ensures { result ≡ predicate_cmp (negated (predicate_of signature.now)) (predicate_of other.now) }
{
    match compare_negated_name(signature.name, other.name) {
        Ordering::Less => Ordering::Less,
        Ordering::Equal => signature.arity.cmp(&other.arity),
        Ordering::Greater => Ordering::Greater,
    }
}

/// The predicates whose negations are among them, by one walk through the predicates and their negations.
fn contradicted_of<'a>(
    alloc: Global,
    signatures: &[Signature<'a>],
) -> Result<Vec<Signature<'a>>, NoMemory>
    requires { Ascends predicate_cmp (predicates_of signatures.now) }
    ensures { IfOk result (λ found. predicates_of found.items ≡ contradicted (predicates_of signatures.now)) }
{
    let mut found = Vec::new(alloc);
    let mut at = 0;
    let mut other = 0;
    while at < signatures.len() && other < signatures.len() {
        match compare_negated(&signatures[at], &signatures[other]) {
            Ordering::Less => at += 1,
            Ordering::Equal => {
                found.push(signatures[at])?;
                at += 1;
            }
            Ordering::Greater => other += 1,
        }
    }
    Ok(found)
}

/// As many nameless variables as a predicate has arguments.
fn variables(alloc: Global, count: usize) -> Result<List<Term>, NoMemory>
    requires { count ≤ 16 }
    ensures { IfOk result (λ terms. terms ≡ map Anon (numbers_from 1 count)) }
{
    let mut terms = Vec::new(alloc);
    for place in 0..count {
        terms.push(Term::Anon(place as u32 + 1))?;
    }
    Ok(List::from_vec(terms))
}

/// An atom with a variable for each argument.
fn general(alloc: Global, name: Name, arity: usize) -> Result<Literal, NoMemory>
    requires { arity ≤ 16 }
    ensures { IfOk result (λ literal. literal ≡ Pos (general_atom name arity)) }
{
    let args = variables(alloc, arity)?;
    Ok(Literal::Pos(Atom { name, args }))
}

/// The name of the negation.
fn negation_of(alloc: Global, name: &[u8]) -> Result<Name, NoMemory>
    ensures { IfOk result (λ negation. negation ≡ negated_name name.now) }
{
    let mut bytes = Vec::new(alloc);
    bytes.push(b'-')?;
    bytes.extend_from_slice(name)?;
    Name::from_slice(alloc, bytes.as_slice())
}

/// The constraint that no atom of a predicate and its negation are both true.
fn constraint(alloc: Global, signature: &Signature<'_>) -> Result<Rule, NoMemory>
    requires { signature.now.arity ≤ 16 }
    ensures { IfOk result (λ rule. rule ≡ consistency_constraint (predicate_of signature.now)) }
{
    let name = Name::from_slice(alloc, signature.name)?;
    let negation = negation_of(alloc, signature.name)?;
    let mut body = List::new(alloc);
    body.push(general(alloc, name, signature.arity)?)?;
    body.push(general(alloc, negation, signature.arity)?)?;
    Ok(Rule {
        head: Head::Disj(List::new(alloc)),
        body,
    })
}

/// The consistency constraints of predicates.
pub fn constraints(alloc: Global, signatures: &[Signature<'_>]) -> Result<List<Rule>, NoMemory>
    requires ascending { Ascends predicate_cmp (predicates_of signatures.now) }
    requires short { IsTrue (list_all (λ q. nat_le q.arity 16) (predicates_of signatures.now)) }
    ensures { IfOk result (λ rules. rules ≡ map consistency_constraint (contradicted (predicates_of signatures.now))) }
{
    let found = contradicted_of(alloc, signatures)?;
    let mut rules = List::new(alloc);
    for signature in found.as_slice() {
        rules.push(constraint(alloc, signature)?)?;
    }
    Ok(rules)
}
