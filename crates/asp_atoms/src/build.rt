//! The vocabulary of a program.
ghost use Rattle.std.specs.Prelude.{◌≡◌, ◌^◌, ◌≤◌, map, length, IfOk, MatchResult};
ghost use Rattle.std.specs.List.{sum_by};
ghost use Rattle.asp_defs.specs.declared.faults.Which.TheVariants as which;
ghost use Rattle.asp_defs.specs.Bases.{Predicate};
ghost use Rattle.asp_defs.specs.Lists.{IsIn};
ghost use Rattle.asp_defs.specs.Limits.{limit};
ghost use Rattle.asp_defs.specs.Constants.{const_cmp};
ghost use Rattle.asp_atoms.specs.Ascending.{Ascends};
ghost use Rattle.asp_atoms.specs.Universes.{constants_of};
ghost use Rattle.asp_atoms.specs.Signatures.{predicates_of};
ghost use Rattle.asp_atoms.specs.Vocabularies.{numbered_from, vocabulary_from, vocabulary_of};
ghost use Rattle.asp_atoms.specs.Answers.{IsFound, IsBaseRefusal};

use crate::constants::{Constants, listed, ranked};
use crate::gathered::gather;
use crate::signatures::Signature;
use crate::vocabularies::{NumberedPredicate, Vocabulary};
use asp_checked::Checked;
use asp_defs::{List, Name, NoMemory, SizeFault};
use std::alloc::Global;

/// How many atoms a predicate has, where there are few.
fn atoms_of(size: u32, arity: usize) -> u32
    requires { size ^ arity ≤ limit which.Atoms }
    ensures { result ≡ size ^ arity }
{
    let mut count = 1_u32;
    for _place in 0..arity {
        count *= size;
    }
    count
}

/// Predicates with their numbers over so many constants.
fn numbered(
    alloc: Global,
    size: u32,
    signatures: &[Signature],
) -> Result<List<NumberedPredicate>, NoMemory>
    requires few { sum_by (λ q. size ^ q.arity) (predicates_of signatures.now) ≤ limit which.Atoms }
    requires short { (q : Predicate) → IsIn q (predicates_of signatures.now) → q.arity ≤ limit which.Arguments }
    ensures { IfOk result (λ out. out ≡ numbered_from size 0 (predicates_of signatures.now)) }
{
    let mut out = Vec::new(alloc);
    let mut first = 0_u32;
    for signature in signatures {
        let name = Name::from_slice(alloc, signature.name)?;
        let arity = signature.arity as u32;
        out.push(NumberedPredicate { name, arity, first })?;
        first += atoms_of(size, signature.arity);
    }
    Ok(List::from_vec(out))
}

/// The vocabulary of the last of these universes and of its predicates, which have so many atoms.
fn vocabulary_over(
    alloc: Global,
    universes: &[Constants],
    last: &Constants,
    signatures: &[Signature],
    atoms: u32,
) -> Result<Vocabulary, NoMemory>
    requires constants { length (constants_of last.now) ≤ limit which.Constants }
    requires ordered { Ascends const_cmp (constants_of last.now) }
    requires atoms { sum_by (λ q. length (constants_of last.now) ^ q.arity) (predicates_of signatures.now) ≤ limit which.Atoms }
    requires short { (q : Predicate) → IsIn q (predicates_of signatures.now) → q.arity ≤ limit which.Arguments }
    ensures { IfOk result (λ v. v
        ≡ vocabulary_from (constants_of last.now) (map constants_of universes.now) (predicates_of signatures.now) atoms) }
{
    let constants = listed(alloc, last)?;
    let predicates = numbered(alloc, constants.len() as u32, signatures)?;
    let universes = ranked(alloc, constants.as_slice(), universes)?;
    let constants = List::from_vec(constants);
    Ok(Vocabulary {
        constants,
        universes,
        predicates,
        atoms,
    })
}

/// The vocabulary of a program.
///
/// # Errors
///
/// `TooLarge` with `Constants`, or else with `Atoms`, exactly where the last universe has more than 4,096 constants, or
/// the last base more than 262,144 atoms; the count is shown as at most 10^18. `NoMemory` where memory runs out.
pub fn vocabulary(alloc: Global, checked: &Checked) -> Result<Vocabulary, SizeFault>
    ensures { MatchResult result (IsFound checked.now (vocabulary_of checked.now)) (IsBaseRefusal checked.now) }
{
    let gathered = gather(alloc, checked)?;
    let last = gathered.universes.len() - 1;
    let constants = &gathered.universes[last];
    let predicates = gathered.signatures[last].as_slice();
    let universes = gathered.universes.as_slice();
    let vocabulary = vocabulary_over(alloc, universes, constants, predicates, gathered.atoms)?;
    Ok(vocabulary)
}
