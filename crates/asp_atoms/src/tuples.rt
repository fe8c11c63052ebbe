//! The atoms of predicates.
ghost use Rattle.std.specs.Prelude.{◌≡◌, ◌∷◌, ◌++◌, map, replicate, IfOk, OnOk};
ghost use Rattle.std.specs.List.{flat_map};
ghost use Rattle.asp_defs.specs.Bases.{product, predicate_atoms};
ghost use Rattle.asp_atoms.specs.Vocabularies.{unnumbered};

use crate::vocabularies::NumberedPredicate;
use asp_defs::{Const, GroundAtom, List, NoMemory};
use std::alloc::Global;

/// A tuple with a constant before it.
fn prepended(alloc: Global, first: &Const, rest: &[Const]) -> Result<List<Const>, NoMemory>
    ensures { IfOk result (λ tuple. tuple ≡ first.now ∷ rest.now) }
{
    let mut tuple = Vec::new(alloc);
    let copy = first.copy()?;
    tuple.push(copy)?;
    for constant in rest {
        let copy = constant.copy()?;
        tuple.push(copy)?;
    }
    Ok(List::from_vec(tuple))
}

/// Adds tuples with a constant before each.
fn add_longer(
    alloc: Global,
    longer: &mut Vec<List<Const>>,
    first: &Const,
    tuples: &[List<Const>],
) -> Result<(), NoMemory>
    ensures { OnOk result (longer.new.items ≡ longer.old.items ++ map (λ tuple. first.now ∷ tuple) tuples.now) }
{
    for tuple in tuples {
        let tuple = prepended(alloc, first, tuple.as_slice())?;
        longer.push(tuple)?;
    }
    Ok(())
}

/// Tuples with each constant before each of them.
fn longer(
    alloc: Global,
    constants: &[Const],
    tuples: &[List<Const>],
) -> Result<Vec<List<Const>>, NoMemory>
    ensures { IfOk result (λ out. out.items ≡ flat_map (λ x. map (λ tuple. x ∷ tuple) tuples.now) constants.now) }
{
    let mut longer = Vec::new(alloc);
    for constant in constants {
        add_longer(alloc, &mut longer, constant, tuples)?;
    }
    Ok(longer)
}

/// All tuples of so many of these constants, the last place running fastest.
fn tuples(alloc: Global, constants: &[Const], arity: u32) -> Result<Vec<List<Const>>, NoMemory>
    ensures { IfOk result (λ out. out.items ≡ product (replicate arity constants.now)) }
{
    let mut tuples = Vec::new(alloc);
    tuples.push(List::new(alloc))?;
    for _place in 0..arity {
        tuples = longer(alloc, constants, tuples.as_slice())?;
    }
    Ok(tuples)
}

/// Adds the atoms of a predicate.
fn add_atoms(
    alloc: Global,
    atoms: &mut Vec<GroundAtom>,
    constants: &[Const],
    predicate: &NumberedPredicate,
) -> Result<(), NoMemory>
    ensures { OnOk result (atoms.new.items ≡ atoms.old.items ++ predicate_atoms constants.now (unnumbered predicate.now)) }
{
    for args in tuples(alloc, constants, predicate.arity)? {
        let name = predicate.name.copy()?;
        atoms.push(GroundAtom { name, args })?;
    }
    Ok(())
}

/// The atoms of predicates.
pub fn atoms(
    alloc: Global,
    constants: &[Const],
    predicates: &[NumberedPredicate],
) -> Result<List<GroundAtom>, NoMemory>
    ensures { IfOk result (λ out. out ≡ flat_map (predicate_atoms constants.now) (map unnumbered predicates.now)) }
{
    let mut atoms = Vec::new(alloc);
    for predicate in predicates {
        add_atoms(alloc, &mut atoms, constants, predicate)?;
    }
    Ok(List::from_vec(atoms))
}
