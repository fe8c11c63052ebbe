//! The numbers of the atoms of the levels' bases.
ghost use Rattle.std.specs.Prelude.{
  ℕ,
  ◌≡◌,
  ◌<◌,
  ◌≤◌,
  ◌+◌,
  ◌*◌,
  ◌^◌,
  ◌++◌,
  List,
  map,
  length,
  IfOk,
  OnOk,
};
ghost use Rattle.asp_defs.specs.declared.faults.Which.TheVariants as which;
ghost use Rattle.asp_defs.specs.Lists.{IsIn};
ghost use Rattle.asp_defs.specs.Limits.{limit};
ghost use Rattle.asp_defs.specs.Bases.{Predicate, predicate_cmp};
ghost use Rattle.asp_atoms.specs.Ascending.{Ascends};
ghost use Rattle.asp_atoms.specs.Signatures.{predicates_of};
ghost use Rattle.asp_atoms.specs.Tuples.{shifted, numbers_of};
ghost use Rattle.asp_atoms.specs.Vocabularies.{unnumbered};
ghost use Rattle.asp_atoms.specs.Members.{
  is_predicate_of,
  level_numbers,
  levels_numbers,
  AreSmall,
  AreRanks,
};

use crate::signatures::{Signature, is_among};
use crate::vocabularies::NumberedPredicate;
use asp_defs::{List, NoMemory};
use std::alloc::Global;

/// Adds numbers, each greater by a distance.
fn add_shifted(out: &mut Vec<u32>, distance: u32, numbers: &[u32]) -> Result<(), NoMemory>
    requires { (n : ℕ) → IsIn n numbers.now → distance + n < 2 ^ 32 }
    ensures { OnOk result (out.new.items ≡ out.old.items ++ map (λ n. distance + n) numbers.now) }
{
    for number in numbers {
        out.push(distance + *number)?;
    }
    Ok(())
}

/// For each rank in turn the numbers, each greater by the rank times the weight.
fn shifted(alloc: Global, weight: u32, numbers: &[u32], ranks: &[u32]) -> Result<Vec<u32>, NoMemory>
    requires multiples { (rank : ℕ) → IsIn rank ranks.now → rank * weight < 2 ^ 32 }
    requires sums { (rank n : ℕ) → IsIn rank ranks.now → IsIn n numbers.now → rank * weight + n < 2 ^ 32 }
    ensures { IfOk result (λ out. out.items ≡ shifted weight numbers.now ranks.now) }
{
    let mut out = Vec::new(alloc);
    for rank in ranks {
        add_shifted(&mut out, *rank * weight, numbers)?;
    }
    Ok(out)
}

/// The numbers of all tuples of constants of these ranks, where the first of all atoms of the predicate has the number
/// `first`.
fn numbers(
    alloc: Global,
    first: u32,
    base: u32,
    ranks: &[u32],
    arity: u32,
) -> Result<Vec<u32>, NoMemory>
    requires small { first + base ^ arity ≤ limit which.Atoms }
    requires ranked { AreRanks base ranks.now }
    ensures { IfOk result (λ out. out.items ≡ numbers_of first base ranks.now arity) }
{
    let mut numbers = Vec::new(alloc);
    numbers.push(first)?;
    let mut weight = 1_u32;
    for _place in 0..arity {
        numbers = shifted(alloc, weight, numbers.as_slice(), ranks)?;
        weight *= base;
    }
    Ok(numbers)
}

/// Whether a predicate is one of a level's.
fn is_of_level(signatures: &[Signature], predicate: &NumberedPredicate) -> bool
    requires { Ascends predicate_cmp (predicates_of signatures.now) }
    ensures { result ≡ is_predicate_of (predicates_of signatures.now) (unnumbered predicate.now) }
{
    let wanted = Signature {
        name: predicate.name.as_slice(),
        arity: predicate.arity as usize,
    };
    is_among(signatures, &wanted)
}

/// The numbers of the atoms of a level: of its predicates over constants of these ranks.
fn level(
    alloc: Global,
    base: u32,
    predicates: &[NumberedPredicate],
    ranks: &[u32],
    signatures: &[Signature],
) -> Result<List<u32>, NoMemory>
    requires small { AreSmall base predicates.now }
    requires ranked { AreRanks base ranks.now }
    requires ordered { Ascends predicate_cmp (predicates_of signatures.now) }
    ensures { IfOk result (λ out. out ≡ level_numbers base predicates.now ranks.now (predicates_of signatures.now)) }
{
    let mut out = Vec::new(alloc);
    for predicate in predicates {
        if is_of_level(signatures, predicate) {
            let numbers = numbers(alloc, predicate.first, base, ranks, predicate.arity)?;
            out.extend_from_slice(numbers.as_slice())?;
        }
    }
    Ok(List::from_vec(out))
}

/// The numbers of the atoms of each level.
pub fn members(
    alloc: Global,
    base: u32,
    predicates: &[NumberedPredicate],
    universes: &[List<u32>],
    signatures: &[Vec<Signature>],
) -> Result<List<List<u32>>, NoMemory>
    requires small { AreSmall base predicates.now }
    requires ranked { (ranks : List ℕ) → IsIn ranks universes.now → AreRanks base ranks }
    requires ordered { (ps : List Predicate) → IsIn ps (map (λ s. predicates_of s.items) signatures.now) → Ascends predicate_cmp ps }
    requires together { length universes.now ≡ length signatures.now }
    ensures { IfOk result (λ out. out
        ≡ levels_numbers base predicates.now universes.now (map (λ s. predicates_of s.items) signatures.now)) }
{
    let mut out = Vec::new(alloc);
    for (at, ranks) in universes.iter().enumerate() {
        let numbers = level(
            alloc,
            base,
            predicates,
            ranks.as_slice(),
            signatures[at].as_slice(),
        )?;
        out.push(numbers)?;
    }
    Ok(List::from_vec(out))
}
