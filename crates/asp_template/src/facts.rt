//! The instances of facts, whose arguments may be intervals.
ghost use Rattle.std.specs.Prelude.{◌≡◌, ◌++◌, map, IfOk, OnOk};
ghost use Rattle.asp_defs.specs.Constants.{const_cmp};
ghost use Rattle.asp_defs.specs.Lists.{numbers_from};
ghost use Rattle.asp_atoms.specs.Ascending.{Ascends};
ghost use Rattle.asp_template.specs.Ranks.{IsOrdered};
ghost use Rattle.asp_template.specs.Compiled.{argument_ranks, fact_template, fact_instances};

use crate::compiler::{bare, single};
use crate::domains::Domains;
use crate::instances::add_all;
use crate::ranks::{capped, first_of, rank_of};
use crate::template::{AtomTemplate, Slot, Template};
use asp_atoms::{ConstRef, Vocabulary, interval_length, stepped};
use asp_defs::{Atom, Const, GroundRule, List, NoMemory, Term};
use std::alloc::Global;

/// The ranks of the integers of an interval.
fn interval_ranks(
    alloc: Global,
    constants: &[Const],
    low: i32,
    high: i32,
) -> Result<Vec<u32>, NoMemory>
    requires { Ascends const_cmp constants.now }
    ensures { IfOk result (λ ranks. ranks.items ≡ argument_ranks constants.now (Term.Range low high)) }
{
    let mut ranks = Vec::new(alloc);
    for step in 0..interval_length(low, high) {
        let value = stepped(low, high, step);
        ranks.push(rank_of(constants, ConstRef::Int(value)))?;
    }
    Ok(ranks)
}

/// The ranks that an argument stands for.
fn argument_ranks(alloc: Global, constants: &[Const], term: &Term) -> Result<Vec<u32>, NoMemory>
    requires { Ascends const_cmp constants.now }
    ensures { IfOk result (λ ranks. ranks.items ≡ argument_ranks constants.now term.now) }
{
    let mut ranks = Vec::new(alloc);
    match term {
        Term::Int(value) => ranks.push(rank_of(constants, ConstRef::Int(*value)))?,
        Term::Sym(name) => ranks.push(rank_of(constants, ConstRef::Sym(name.as_slice())))?,
        Term::Var(_) => {}
        Term::Anon(_) => {}
        Term::Range(low, high) => return interval_ranks(alloc, constants, *low, *high),
    }
    Ok(ranks)
}

/// The ranks that each argument stands for.
fn all_argument_ranks(
    alloc: Global,
    constants: &[Const],
    terms: &[Term],
) -> Result<List<List<u32>>, NoMemory>
    requires { Ascends const_cmp constants.now }
    ensures { IfOk result (λ ranks. ranks ≡ map (argument_ranks constants.now) terms.now) }
{
    let mut ranks = Vec::with_capacity(alloc, terms.len())?;
    for term in terms {
        ranks.push(List::from_vec(argument_ranks(alloc, constants, term)?))?;
    }
    Ok(List::from_vec(ranks))
}

/// As many variables as asked for, in their order.
fn variables(alloc: Global, count: usize) -> Result<List<Slot>, NoMemory>
    ensures { IfOk result (λ slots. slots ≡ map Slot.Variable (numbers_from 0 count)) }
{
    let mut slots = Vec::with_capacity(alloc, count)?;
    for place in 0..count {
        slots.push(Slot::Variable(place))?;
    }
    Ok(List::from_vec(slots))
}

/// The template of a fact whose arguments run through ranks.
fn fact_template(alloc: Global, vocabulary: &Vocabulary, atom: &Atom) -> Result<Template, NoMemory>
    requires { IsOrdered vocabulary.now }
    ensures { IfOk result (λ template. template ≡ fact_template vocabulary.now atom.now) }
{
    let args = atom.args.as_slice();
    let first = first_of(
        vocabulary.predicates.as_slice(),
        atom.name.as_slice(),
        args.len(),
    );
    let slots = variables(alloc, args.len())?;
    let heads = single(alloc, AtomTemplate { first, slots })?;
    Ok(bare(alloc, false, heads))
}

/// Adds the instances of a fact.
pub fn add_fact(
    alloc: Global,
    out: &mut List<GroundRule>,
    vocabulary: &Vocabulary,
    atom: &Atom,
) -> Result<(), NoMemory>
    requires { IsOrdered vocabulary.now }
    ensures { OnOk result (out.new ≡ out.old ++ fact_instances vocabulary.now atom.now) }
{
    let constants = vocabulary.constants.as_slice();
    let template = fact_template(alloc, vocabulary, atom)?;
    let ranks = all_argument_ranks(alloc, constants, atom.args.as_slice())?;
    let size = capped(constants.len());
    add_all(alloc, out, size, &template, Domains::Each(ranks.as_slice()))
}
