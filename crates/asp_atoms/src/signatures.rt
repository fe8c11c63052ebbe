//! The predicates of the levels.
ghost use Rattle.std.specs.Prelude.{◌≡◌, ◌+◌, ◌++◌, [], map, length, IfOk, OnOk, is_some, position};
ghost use Rattle.std.specs.List.{flat_map};
ghost use Rattle.std.specs.Ordering.{is_eq};
ghost use Rattle.asp_defs.specs.Lists.{numbers_from};
ghost use Rattle.asp_defs.specs.Constants.{distinct};
ghost use Rattle.asp_defs.specs.Bases.{predicate_cmp, atom_predicate, rule_predicates, predicates, last_level};
ghost use Rattle.asp_atoms.specs.Ascending.{Ascends};
ghost use Rattle.asp_atoms.specs.Signatures.{predicate_of, predicates_of, predicates_to};

use crate::terms::level_rules;
use asp_defs::{Atom, NoMemory, Program, Rule};
use asp_walk::Atoms;
use std::alloc::Global;

/// A predicate: a name with its arity. The name borrows its bytes.
#[derive(Clone, Copy, PartialEq, Eq, PartialOrd, Ord)]
pub struct Signature<'a> {
    /// The bytes of its name.
    pub name: &'a [u8],
    /// How many arguments it has.
    pub arity: usize,
}

/// The predicate of an atom.
fn signature_of(atom: &Atom) -> Signature<'_>
    ensures { predicate_of result ≡ atom_predicate atom.now }
{
    Signature {
        name: atom.name.as_slice(),
        arity: atom.args.len(),
    }
}

/// Adds the predicates of a rule.
fn add_rule<'a>(out: &mut Vec<Signature<'a>>, rule: &'a Rule) -> Result<(), NoMemory>
    ensures { OnOk result (predicates_of out.new.items ≡ predicates_of out.old.items ++ rule_predicates rule.now) }
{
    for atom in Atoms::of_rule(rule) {
        out.push(signature_of(atom))?;
    }
    Ok(())
}

/// Adds the predicates of rules.
fn add_rules<'a>(out: &mut Vec<Signature<'a>>, rules: &'a [Rule]) -> Result<(), NoMemory>
    ensures { OnOk result (predicates_of out.new.items ≡ predicates_of out.old.items ++ flat_map rule_predicates rules.now) }
{
    for rule in rules {
        add_rule(out, rule)?;
    }
    Ok(())
}

/// Predicates and those of further rules, ascending, each once.
fn signatures_with<'a>(
    alloc: Global,
    before: &[Signature<'a>],
    rules: &'a [Rule],
) -> Result<Vec<Signature<'a>>, NoMemory>
    ensures { IfOk result (λ out. predicates_of out.items
        ≡ distinct predicate_cmp (predicates_of before.now ++ flat_map rule_predicates rules.now)) }
{
    let mut signatures = Vec::from_slice(alloc, before)?;
    add_rules(&mut signatures, rules)?;
    signatures.sort_unstable();
    signatures.dedup();
    Ok(signatures)
}

/// The predicates of the levels: of none of them, of the first, and so on to those of all.
pub fn signatures<'a>(
    alloc: Global,
    levels: &[&'a [Rule]],
) -> Result<Vec<Vec<Signature<'a>>>, NoMemory>
    ensures { IfOk result (λ out. map (λ s. predicates_of s.items) out.items
        ≡ map (predicates_to (map (λ l. l.now) levels.now)) (numbers_from 0 (length levels.now + 1))) }
{
    let mut signatures = Vec::new(alloc);
    signatures.push(Vec::new(alloc))?;
    for (at, rules) in levels.iter().enumerate() {
        let next = signatures_with(alloc, signatures[at].as_slice(), rules)?;
        signatures.push(next)?;
    }
    Ok(signatures)
}

/// The predicates of the levels of a program, ascending: of none of them, of the first, and so on to those of all and the
/// constraint part.
pub fn program_signatures(
    alloc: Global,
    program: &Program,
) -> Result<Vec<Vec<Signature<'_>>>, NoMemory>
    ensures { IfOk result (λ out. map (λ s. predicates_of s.items) out.items
        ≡ map (predicates program.now) (numbers_from 0 (last_level program.now + 1))) }
{
    let levels = level_rules(alloc, program)?;
    signatures(alloc, levels.as_slice())
}

/// Whether a predicate is one of some that ascend.
pub fn is_among(signatures: &[Signature], wanted: &Signature) -> bool
    requires { Ascends predicate_cmp (predicates_of signatures.now) }
    ensures { result ≡ is_some (position (λ q. is_eq (predicate_cmp (predicate_of wanted.now) q)) (predicates_of signatures.now)) }
{
    signatures.binary_search(wanted).is_ok()
}
