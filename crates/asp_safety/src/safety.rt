//! The unsafe variables of a rule.
ghost use Rattle.std.specs.Prelude.{◌≡◌, ◌++◌, ℕ, not, length, OnOk, IfOk};
ghost use Rattle.std.specs.List.{flat_map, filter, find};
ghost use Rattle.std.specs.Option.{option_map};
ghost use Rattle.asp_defs.specs.Instances.{atom_variables, first_occurrences};
ghost use Rattle.asp_defs.specs.Safety.{
  is_variable_of,
  element_variables,
  rule_variables,
  safe_variables,
  unbound,
  head_unsafe,
  rule_unsafe,
  first_unsafe,
  shown_variable,
};
ghost use Rattle.asp_safety.specs.Variables.{term_of, terms_of};
ghost use Rattle.asp_safety.specs.Bindings.{bound_alone, literal_links, links_of};
ghost use Rattle.asp_safety.specs.Closure.{IsLeast};
ghost use Rattle.asp_safety.specs.Representatives.{RepresentAll, representative_links};
ghost use Rattle.asp_safety.specs.Safe.{AgreeOn, Agree, element_unsafe};

use crate::bindings::add_bindings;
use crate::closure::{close, has, settle_all};
use crate::representatives::{add_representatives, representatives_of};
use crate::variable::{Variable, variables};
use asp_defs::{Element, Head, Literal, Name, NoMemory, Rule, Var};
use asp_walk::Terms;
use std::alloc::Global;
use std::collections::{HashMap, HashSet};

/// Adds those of the variables that are in a set.
fn add_common<'a>(
    out: &mut Vec<Variable<'a>>,
    set: &HashSet<Variable<'a>>,
    variables: &[Variable<'a>],
) -> Result<(), NoMemory>
    ensures { OnOk result (terms_of out.new.items
        ≡ terms_of out.old.items ++ filter (is_variable_of (terms_of set.now.keys)) (terms_of variables.now)) }
{
    for variable in variables {
        if has(set, *variable) {
            out.push(*variable)?;
        }
    }
    Ok(())
}

/// Adds those of the variables that aren't in a set.
fn add_others<'a>(
    out: &mut Vec<Variable<'a>>,
    set: &HashSet<Variable<'a>>,
    variables: &[Variable<'a>],
) -> Result<(), NoMemory>
    ensures { OnOk result (terms_of out.new.items
        ≡ terms_of out.old.items
        ++ filter (λ v. not (is_variable_of (terms_of set.now.keys) v)) (terms_of variables.now)) }
{
    for variable in variables {
        if !has(set, *variable) {
            out.push(*variable)?;
        }
    }
    Ok(())
}

/// The safe variables of a body.
fn safe_of_body<'a>(alloc: Global, body: &'a [Literal]) -> Result<HashSet<Variable<'a>>, NoMemory>
    ensures { IfOk result (λ set. Agree (terms_of set.keys) (safe_variables body.now)) }
{
    let mut bound = Vec::new(alloc);
    let mut links = Vec::new(alloc);
    add_bindings(&mut bound, &mut links, body)?;
    close(alloc, bound.as_slice(), links.as_slice())
}

/// The representatives of the variables that a body's equations join.
fn representatives_of_body<'a>(
    alloc: Global,
    body: &'a [Literal],
) -> Result<HashMap<Variable<'a>, Variable<'a>>, NoMemory>
    ensures { IfOk result (λ representatives. RepresentAll (flat_map literal_links body.now) representatives.entries) }
{
    let mut bound = Vec::new(alloc);
    let mut links = Vec::new(alloc);
    add_bindings(&mut bound, &mut links, body)?;
    representatives_of(alloc, links.as_slice())
}

/// The least variables by an element's condition, by what a body has of the element's variables, and by representatives.
fn safe_beside<'a>(
    alloc: Global,
    safe: &HashSet<Variable<'a>>,
    representatives: &HashMap<Variable<'a>, Variable<'a>>,
    cond: &'a [Literal],
    variables: &[Variable<'a>],
) -> Result<HashSet<Variable<'a>>, NoMemory>
    ensures { IfOk result (λ set. IsLeast
        (flat_map bound_alone cond.now ++ filter (is_variable_of (terms_of safe.now.keys)) (terms_of variables.now))
        (flat_map literal_links cond.now ++ flat_map (representative_links representatives.now.entries) (terms_of variables.now))
        (terms_of set.keys)) }
{
    let mut bound = Vec::new(alloc);
    let mut links = Vec::new(alloc);
    add_bindings(&mut bound, &mut links, cond)?;
    add_common(&mut bound, safe, variables)?;
    add_representatives(&mut links, representatives, variables)?;
    close(alloc, bound.as_slice(), links.as_slice())
}

/// The safe ones of an element's variables. The safe ones and the representatives of the body's are known, so that its
/// literals aren't looked at again.
fn safe_of_element<'a>(
    alloc: Global,
    body: &'a [Literal],
    safe: &HashSet<Variable<'a>>,
    representatives: &HashMap<Variable<'a>, Variable<'a>>,
    element: &'a Element,
    variables: &[Variable<'a>],
) -> Result<HashSet<Variable<'a>>, NoMemory>
    requires safe { Agree (terms_of safe.now.keys) (safe_variables body.now) }
    requires representatives { RepresentAll (flat_map literal_links body.now) representatives.now.entries }
    requires variables { terms_of variables.now ≡ element_variables element.now }
    ensures { IfOk result (λ set. AgreeOn (terms_of variables.now) (terms_of set.keys)
        (safe_variables (body.now ++ element.now.cond))) }
{
    let cond = element.cond.as_slice();
    safe_beside(alloc, safe, representatives, cond, variables)
}

/// Adds the unsafe variables of an element.
fn add_element_unsafe<'a>(
    alloc: Global,
    out: &mut Vec<Variable<'a>>,
    body: &'a [Literal],
    safe: &HashSet<Variable<'a>>,
    representatives: &HashMap<Variable<'a>, Variable<'a>>,
    element: &'a Element,
) -> Result<(), NoMemory>
    requires safe { Agree (terms_of safe.now.keys) (safe_variables body.now) }
    requires representatives { RepresentAll (flat_map literal_links body.now) representatives.now.entries }
    ensures { OnOk result (terms_of out.new.items ≡ terms_of out.old.items ++ element_unsafe body.now element.now) }
{
    let variables = variables(alloc, Terms::of_element(element))?;
    let set = safe_of_element(
        alloc,
        body,
        safe,
        representatives,
        element,
        variables.as_slice(),
    )?;
    add_others(out, &set, variables.as_slice())
}

/// Adds the unsafe variables of elements.
fn add_elements_unsafe<'a>(
    alloc: Global,
    out: &mut Vec<Variable<'a>>,
    body: &'a [Literal],
    safe: &HashSet<Variable<'a>>,
    representatives: &HashMap<Variable<'a>, Variable<'a>>,
    elements: &'a [Element],
) -> Result<(), NoMemory>
    requires safe { Agree (terms_of safe.now.keys) (safe_variables body.now) }
    requires representatives { RepresentAll (flat_map literal_links body.now) representatives.now.entries }
    ensures { OnOk result (terms_of out.new.items
        ≡ terms_of out.old.items ++ flat_map (element_unsafe body.now) elements.now) }
{
    for element in elements {
        add_element_unsafe(alloc, out, body, safe, representatives, element)?;
    }
    Ok(())
}

/// Adds the unsafe variables of a head.
fn add_head_unsafe<'a>(
    alloc: Global,
    out: &mut Vec<Variable<'a>>,
    body: &'a [Literal],
    safe: &HashSet<Variable<'a>>,
    head: &'a Head,
) -> Result<(), NoMemory>
    requires safe { Agree (terms_of safe.now.keys) (safe_variables body.now) }
    ensures { OnOk result (terms_of out.new.items ≡ terms_of out.old.items ++ head_unsafe body.now head.now) }
{
    match head {
        Head::Disj(atoms) => {
            let variables = variables(alloc, Terms::of_atoms(atoms.as_slice()))?;
            add_others(out, safe, variables.as_slice())
        }
        Head::Choice(_, elements, _) => {
            let representatives = representatives_of_body(alloc, body)?;
            add_elements_unsafe(
                alloc,
                out,
                body,
                safe,
                &representatives,
                elements.as_slice(),
            )
        }
    }
}

/// The unsafe variables of a rule whose body has these safe variables and is written with these variables.
fn unsafe_beside<'a>(
    alloc: Global,
    rule: &'a Rule,
    safe: &HashSet<Variable<'a>>,
    variables: &[Variable<'a>],
) -> Result<Vec<Variable<'a>>, NoMemory>
    requires { Agree (terms_of safe.now.keys) (safe_variables rule.now.body) }
    ensures { IfOk result (λ out. terms_of out.items ≡ head_unsafe rule.now.body rule.now.head
        ++ filter (λ v. not (is_variable_of (terms_of safe.now.keys) v)) (terms_of variables.now)) }
{
    let mut out = Vec::new(alloc);
    add_head_unsafe(alloc, &mut out, rule.body.as_slice(), safe, &rule.head)?;
    add_others(&mut out, safe, variables)?;
    Ok(out)
}

/// The unsafe variables of a rule.
fn rule_unsafe<'a>(alloc: Global, rule: &'a Rule) -> Result<Vec<Variable<'a>>, NoMemory>
    ensures { IfOk result (λ out. terms_of out.items ≡ rule_unsafe rule.now) }
{
    let body = rule.body.as_slice();
    let variables = variables(alloc, Terms::of_literals(body))?;
    let safe = safe_of_body(alloc, body)?;
    unsafe_beside(alloc, rule, &safe, variables.as_slice())
}

/// The first of the variables that is one of some others.
fn first_of<'a>(
    alloc: Global,
    variables: &[Variable<'a>],
    others: &[Variable<'a>],
) -> Result<Option<Variable<'a>>, NoMemory>
    ensures { IfOk result (λ found. option_map term_of found
        ≡ find (is_variable_of (terms_of others.now)) (terms_of variables.now)) }
{
    let mut set = HashSet::new(alloc);
    let mut queue = Vec::new(alloc);
    settle_all(&mut set, &mut queue, others)?;
    for variable in variables {
        if has(&set, *variable) {
            return Ok(Some(*variable));
        }
    }
    Ok(None)
}

/// The unsafe variable of a rule that is written first.
pub fn first_unsafe<'a>(alloc: Global, rule: &'a Rule) -> Result<Option<Variable<'a>>, NoMemory>
    ensures { IfOk result (λ found. option_map term_of found ≡ first_unsafe rule.now) }
{
    let others = rule_unsafe(alloc, rule)?;
    if others.is_empty() {
        return Ok(None);
    }
    let variables = variables(alloc, Terms::of_rule(rule))?;
    first_of(alloc, variables.as_slice(), others.as_slice())
}

/// The variable as refusals show it, its name copied.
pub fn shown(alloc: Global, variable: Variable<'_>) -> Result<Var, NoMemory>
    ensures { IfOk result (λ shown. shown ≡ shown_variable (term_of variable.entry)) }
{
    match variable {
        Variable::Named(name) => Ok(Var::Named(Name::from_slice(alloc, name)?)),
        Variable::Anon(_) => Ok(Var::Anon),
    }
}

/// How many distinct variables there are.
pub fn count_distinct<'a>(alloc: Global, variables: &[Variable<'a>]) -> Result<usize, NoMemory>
    ensures { IfOk result (λ count. count ≡ length (first_occurrences (terms_of variables.now))) }
{
    let mut set = HashSet::new(alloc);
    let mut queue = Vec::new(alloc);
    settle_all(&mut set, &mut queue, variables)?;
    Ok(queue.len())
}
