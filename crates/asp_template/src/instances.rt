//! The instances of a template.
ghost use Rattle.std.specs.Prelude.{◌≡◌, ◌++◌, ◌≤◌, map, length, take, drop, IfOk, OnOk};
ghost use Rattle.std.specs.List.{flat_map, list_all};
ghost use Rattle.std.specs.Ordering.{nat_cmp};
ghost use Rattle.asp_defs.specs.Bases.{product};
ghost use Rattle.asp_defs.specs.Instances.{op_holds};
ghost use Rattle.asp_template.specs.Domains.{domains_of};
ghost use Rattle.asp_template.specs.Templates.{slot_rank, number_at, is_true, instance_at, instances_over};

use crate::domains::{Domains, domain_at, variable_count};
use crate::template::{AtomTemplate, Comparison, Slot, Template};
use asp_defs::{GroundRule, List, NoMemory, Op};
use std::alloc::Global;

/// The rank that a term has where the variables have these ranks.
fn slot_rank(ranks: &[u32], slot: Slot) -> u32
    ensures { result ≡ slot_rank ranks.now slot }
{
    match slot {
        Slot::Rank(rank) => rank,
        Slot::Variable(place) => { if place < ranks.len() { ranks[place] } else { 0 } }
    }
}

/// An atom's number. It is below the limit on atoms, so that nothing is cut off.
pub fn number_at(size: u32, ranks: &[u32], atom: &AtomTemplate) -> u32
    ensures { result ≡ number_at size ranks.now atom.now }
{
    let slots = atom.slots.as_slice();
    let mut number = 0_u32;
    for slot in slots {
        number = number
            .saturating_mul(size)
            .saturating_add(slot_rank(ranks, *slot));
    }
    atom.first.saturating_add(number)
}

/// The numbers of atoms.
pub fn numbers_at(
    alloc: Global,
    size: u32,
    ranks: &[u32],
    atoms: &[AtomTemplate],
) -> Result<List<u32>, NoMemory>
    ensures { IfOk result (λ numbers. numbers ≡ map (number_at size ranks.now) atoms.now) }
{
    let mut numbers = Vec::with_capacity(alloc, atoms.len())?;
    for atom in atoms {
        numbers.push(number_at(size, ranks, atom))?;
    }
    Ok(List::from_vec(numbers))
}

/// Whether an operator holds of two ranks.
fn holds(op: Op, left: u32, right: u32) -> bool
    ensures { result ≡ op_holds op (nat_cmp left right) }
{
    match op {
        Op::Eq => left == right,
        Op::Ne => left != right,
        Op::Lt => left < right,
        Op::Le => left <= right,
        Op::Gt => left > right,
        Op::Ge => left >= right,
    }
}

/// Whether all comparisons are true.
pub fn are_true(ranks: &[u32], comparisons: &[Comparison]) -> bool
    ensures { result ≡ list_all (is_true ranks.now) comparisons.now }
{
    for comparison in comparisons {
        let left = slot_rank(ranks, comparison.left);
        let right = slot_rank(ranks, comparison.right);
        if !holds(comparison.op, left, right) {
            return false;
        }
    }
    true
}

/// The ground rule of a template under ranks of its variables.
fn ground_rule(
    alloc: Global,
    size: u32,
    template: &Template,
    ranks: &[u32],
) -> Result<GroundRule, NoMemory>
    ensures { IfOk result (λ rule. rule ≡ record {
      choice = template.now.choice;
      head = map (number_at size ranks.now) template.now.heads;
      pos = map (number_at size ranks.now) template.now.pos;
      neg = map (number_at size ranks.now) template.now.neg;
    }) }
{
    let head = numbers_at(alloc, size, ranks, template.heads.as_slice())?;
    let pos = numbers_at(alloc, size, ranks, template.pos.as_slice())?;
    let neg = numbers_at(alloc, size, ranks, template.neg.as_slice())?;
    let choice = template.choice;
    Ok(GroundRule {
        choice,
        head,
        pos,
        neg,
    })
}

/// Adds the ground rule of a template under ranks of its variables, unless a comparison is false.
fn add_instance(
    alloc: Global,
    out: &mut List<GroundRule>,
    size: u32,
    template: &Template,
    ranks: &[u32],
) -> Result<(), NoMemory>
    ensures { OnOk result (out.new ≡ out.old ++ instance_at size template.now ranks.now) }
{
    if are_true(ranks, template.comparisons.as_slice()) {
        out.push(ground_rule(alloc, size, template, ranks)?)?;
    }
    Ok(())
}

/// Adds the instances in which the first variables have given ranks and the others run through their domains, the last
/// one fastest. It calls itself once per variable, of which a rule has at most 16.
fn add_instances(
    alloc: Global,
    out: &mut List<GroundRule>,
    size: u32,
    template: &Template,
    domains: Domains<'_>,
    ranks: &mut [u32],
    given: usize,
) -> Result<(), NoMemory>
    requires within { given ≤ length ranks.old }
    requires whole { length (domains_of domains) ≡ length ranks.old }
    ensures added { OnOk result (out.new ≡ out.old
        ++ flat_map (λ rest. instance_at size template.now (take given ranks.old ++ rest))
        (product (drop given (domains_of domains.entry)))) }
    ensures kept { take given ranks.new ≡ take given ranks.old }
{
    if given == ranks.len() {
        return add_instance(alloc, out, size, template, ranks);
    }
    let domain = domain_at(domains, given);
    for rank in domain {
        ranks[given] = *rank;
        add_instances(alloc, out, size, template, domains, ranks, given + 1)?;
    }
    Ok(())
}

/// Adds the instances of a template where each variable runs through its domain, the last one fastest.
pub fn add_all(
    alloc: Global,
    out: &mut List<GroundRule>,
    size: u32,
    template: &Template,
    domains: Domains<'_>,
) -> Result<(), NoMemory>
    ensures { OnOk result (out.new ≡ out.old ++ instances_over size template.now (domains_of domains.entry)) }
{
    let mut ranks = vec![in alloc; 0_u32; variable_count(domains)]?;
    add_instances(alloc, out, size, template, domains, ranks.as_mut_slice(), 0)
}
