//! The variables that equations join in any number of steps, and one of them that stands for them.
ghost use Rattle.std.specs.Prelude.{◌≡◌, ◌⊎◌, ◌++◌, ◌∷◌, length, option_map, OnOk, IfOk};
ghost use Rattle.std.specs.List.{flat_map};
ghost use Rattle.asp_defs.specs.Lists.{IsIn};
ghost use Rattle.asp_safety.specs.Variables.{term_of, terms_of};
ghost use Rattle.asp_safety.specs.Bindings.{links_of};
ghost use Rattle.asp_safety.specs.Index.{IsIndexOf};
ghost use Rattle.asp_safety.specs.Representatives.{IsSymmetric, IsRepresented, Represent, RepresentAll, Represents, Keeps, representative_of, representative_links};

use crate::bindings::{Link, add_both};
use crate::closure::reached;
use crate::index::{Index, index_of};
use crate::variable::Variable;
use asp_defs::NoMemory;
use std::alloc::Global;
use std::collections::HashMap;

/// The representative of a variable, if it has one.
fn representative_of<'a>(
    representatives: &HashMap<Variable<'a>, Variable<'a>>,
    variable: Variable<'a>,
) -> Option<Variable<'a>>
    ensures { option_map term_of result ≡ representative_of representatives.now.entries (term_of variable.entry) }
{
    representatives.get(&variable).copied()
}

/// How many bytes a variable's name has; a nameless one counts as one.
fn size_of(variable: Variable<'_>) -> usize {
    match variable {
        Variable::Named(name) => name.len(),
        Variable::Anon(_) => 1,
    }
}

/// The shorter one of two variables.
fn shorter<'a>(first: Variable<'a>, second: Variable<'a>) -> Variable<'a>
    ensures { (term_of result ≡ term_of first.entry) ⊎ (term_of result ≡ term_of second.entry) }
{
    if size_of(second) < size_of(first) {
        second
    } else {
        first
    }
}

/// The shortest one of a variable and others.
fn shortest<'a>(first: Variable<'a>, others: &[Variable<'a>]) -> Variable<'a>
    ensures { IsIn (term_of result) (term_of first.entry ∷ terms_of others.now) }
{
    let mut best = first;
    for variable in others {
        best = shorter(best, *variable);
    }
    best
}

/// Gives each of the variables a representative.
fn represent_each<'a>(
    representatives: &mut HashMap<Variable<'a>, Variable<'a>>,
    variables: &[Variable<'a>],
    representative: Variable<'a>,
) -> Result<(), NoMemory>
    ensures { OnOk result (Represents representatives.old.entries representatives.new.entries (terms_of variables.now)
        (term_of representative.entry)) }
{
    for variable in variables {
        representatives.insert(*variable, representative)?;
    }
    Ok(())
}

/// Gives a representative to a variable and to all that are joined with it, unless it has one. A representative is as
/// short as any of them, since its name is read wherever one of them is written.
fn represent<'a>(
    alloc: Global,
    representatives: &mut HashMap<Variable<'a>, Variable<'a>>,
    links: &[Link<'a>],
    index: &Index<'a>,
    start: Variable<'a>,
) -> Result<(), NoMemory>
    requires index { IsIndexOf (links_of links.now) (length links.now) index.now.last.entries
        index.now.previous.items }
    requires symmetric { IsSymmetric (links_of links.now) }
    requires represent { Represent (links_of links.now) representatives.old.entries }
    ensures represent { OnOk result (Represent (links_of links.now) representatives.new.entries) }
    ensures represented { OnOk result (IsRepresented representatives.new.entries (term_of start.entry)) }
    ensures kept { OnOk result (Keeps representatives.old.entries representatives.new.entries) }
{
    if representative_of(representatives, start).is_some() {
        return Ok(());
    }
    let joined = reached(alloc, links, index, start)?;
    let representative = shortest(start, joined.as_slice());
    represent_each(representatives, joined.as_slice(), representative)?;
    Ok(())
}

/// The representatives of all variables of links, where each link stands there in both directions. Each link is looked
/// at once.
pub fn representatives_of<'a>(
    alloc: Global,
    links: &[Link<'a>],
) -> Result<HashMap<Variable<'a>, Variable<'a>>, NoMemory>
    requires { IsSymmetric (links_of links.now) }
    ensures { IfOk result (λ representatives. RepresentAll (links_of links.now) representatives.entries) }
{
    let mut representatives = HashMap::new(alloc);
    let index = index_of(alloc, links)?;
    for link in links {
        represent(alloc, &mut representatives, links, &index, link.from)?;
    }
    Ok(representatives)
}

/// Adds the links between a variable and its representative, if it has one.
fn add_representative<'a>(
    links: &mut Vec<Link<'a>>,
    representatives: &HashMap<Variable<'a>, Variable<'a>>,
    variable: Variable<'a>,
) -> Result<(), NoMemory>
    ensures { OnOk result (links_of links.new.items
        ≡ links_of links.old.items ++ representative_links representatives.now.entries (term_of variable.entry)) }
{
    match representative_of(representatives, variable) {
        Some(representative) => add_both(links, variable, representative),
        None => Ok(()),
    }
}

/// Adds the links between variables and their representatives.
pub fn add_representatives<'a>(
    links: &mut Vec<Link<'a>>,
    representatives: &HashMap<Variable<'a>, Variable<'a>>,
    variables: &[Variable<'a>],
) -> Result<(), NoMemory>
    ensures { OnOk result (links_of links.new.items
        ≡ links_of links.old.items ++ flat_map (representative_links representatives.now.entries) (terms_of variables.now)) }
{
    for variable in variables {
        add_representative(links, representatives, *variable)?;
    }
    Ok(())
}
