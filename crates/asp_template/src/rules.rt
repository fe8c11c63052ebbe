//! The instances of rules.
ghost use Rattle.std.specs.Prelude.{◌≡◌, ◌++◌, OnOk};
ghost use Rattle.std.specs.List.{flat_map};
ghost use Rattle.asp_template.specs.Ranks.{IsOrdered};
ghost use Rattle.asp_template.specs.Variables.{found_disjunctive, found_element};
ghost use Rattle.asp_template.specs.Compiled.{schema_instances, disjunctive_instances, compiled_instances};

use crate::compiler::{atom_template, atom_templates, compile, single};
use crate::domains::Domains;
use crate::facts::add_fact;
use crate::instances::add_all;
use crate::ranks::capped;
use crate::variables::{disjunctive_variables, element_variables};
use asp_atoms::Vocabulary;
use asp_defs::{Atom, Element, GroundRule, Head, List, Literal, NoMemory, Rule};
use std::alloc::Global;

/// Adds the instances of a disjunctive rule that isn't spread.
fn add_disjunctive(
    alloc: Global,
    out: &mut List<GroundRule>,
    vocabulary: &Vocabulary,
    ranks: &[u32],
    atoms: &[Atom],
    body: &[Literal],
) -> Result<(), NoMemory>
    requires { IsOrdered vocabulary.now }
    ensures { OnOk result (out.new ≡ out.old
        ++ schema_instances vocabulary.now ranks.now (found_disjunctive atoms.now body.now)) }
{
    let found = disjunctive_variables(atoms, body);
    let variables = found.as_slice();
    let heads = atom_templates(alloc, vocabulary, variables, atoms)?;
    let template = compile(alloc, vocabulary, variables, false, heads, body, &[])?;
    let size = capped(vocabulary.constants.len());
    let domains = Domains::Same(ranks, variables.len());
    add_all(alloc, out, size, &template, domains)
}

/// Adds the instances of an element of a choice.
fn add_element(
    alloc: Global,
    out: &mut List<GroundRule>,
    vocabulary: &Vocabulary,
    ranks: &[u32],
    element: &Element,
    body: &[Literal],
) -> Result<(), NoMemory>
    requires { IsOrdered vocabulary.now }
    ensures { OnOk result (out.new ≡ out.old
        ++ schema_instances vocabulary.now ranks.now (found_element body.now element.now)) }
{
    let found = element_variables(body, element);
    let variables = found.as_slice();
    let head = atom_template(alloc, vocabulary, variables, &element.atom)?;
    let heads = single(alloc, head)?;
    let cond = element.cond.as_slice();
    let template = compile(alloc, vocabulary, variables, true, heads, body, cond)?;
    let size = capped(vocabulary.constants.len());
    let domains = Domains::Same(ranks, variables.len());
    add_all(alloc, out, size, &template, domains)
}

/// Adds the instances of the elements of a choice, in their order.
fn add_elements(
    alloc: Global,
    out: &mut List<GroundRule>,
    vocabulary: &Vocabulary,
    ranks: &[u32],
    elements: &[Element],
    body: &[Literal],
) -> Result<(), NoMemory>
    requires { IsOrdered vocabulary.now }
    ensures { OnOk result (out.new ≡ out.old
        ++ flat_map (λ e. schema_instances vocabulary.now ranks.now (found_element body.now e)) elements.now) }
{
    for element in elements {
        add_element(alloc, out, vocabulary, ranks, element, body)?;
    }
    Ok(())
}

/// Adds the instances of a disjunctive rule.
fn add_disjunction(
    alloc: Global,
    out: &mut List<GroundRule>,
    vocabulary: &Vocabulary,
    ranks: &[u32],
    atoms: &[Atom],
    body: &[Literal],
) -> Result<(), NoMemory>
    requires { IsOrdered vocabulary.now }
    ensures { OnOk result (out.new ≡ out.old ++ disjunctive_instances vocabulary.now ranks.now atoms.now body.now) }
{
    if atoms.len() == 1 && body.len() == 0 {
        add_fact(alloc, out, vocabulary, &atoms[0])
    } else {
        add_disjunctive(alloc, out, vocabulary, ranks, atoms, body)
    }
}

/// Adds the instances of a rule.
fn add_rule(
    alloc: Global,
    out: &mut List<GroundRule>,
    vocabulary: &Vocabulary,
    ranks: &[u32],
    rule: &Rule,
) -> Result<(), NoMemory>
    requires { IsOrdered vocabulary.now }
    ensures { OnOk result (out.new ≡ out.old ++ compiled_instances vocabulary.now ranks.now rule.now) }
{
    let body = rule.body.as_slice();
    match &rule.head {
        Head::Disj(atoms) => add_disjunction(alloc, out, vocabulary, ranks, atoms.as_slice(), body),
        Head::Choice(_, elements, _) => {
            add_elements(alloc, out, vocabulary, ranks, elements.as_slice(), body)
        }
    }
}

/// Adds the instances of rules.
pub fn add_rules(
    alloc: Global,
    out: &mut List<GroundRule>,
    vocabulary: &Vocabulary,
    ranks: &[u32],
    rules: &[Rule],
) -> Result<(), NoMemory>
    requires { IsOrdered vocabulary.now }
    ensures { OnOk result (out.new ≡ out.old ++ flat_map (compiled_instances vocabulary.now ranks.now) rules.now) }
{
    for rule in rules {
        add_rule(alloc, out, vocabulary, ranks, rule)?;
    }
    Ok(())
}
