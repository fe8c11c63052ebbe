//! The ground bounds of choices.
ghost use Rattle.std.specs.Prelude.{◌≡◌, ◌++◌, ◌≤◌, ◌||◌, is_some, [], map, length, take, drop, replicate, get_or, IfOk, OnOk};
ghost use Rattle.std.specs.List.{flat_map};
ghost use Rattle.asp_defs.specs.Bases.{product};
ghost use Rattle.asp_template.specs.Domains.{domains_of};
ghost use Rattle.asp_template.specs.Ranks.{IsOrdered};
ghost use Rattle.asp_template.specs.Templates.{number_at};
ghost use Rattle.asp_ground.specs.BoundTemplates.{term_at, terms_at, bound_at, bounds_over, element_template, choice_bounds, head_bounds_by, compiled_bounds};

use crate::bound_template::{BoundTemplate, ElementTemplate};
use crate::level::universe_of;
use asp_atoms::Vocabulary;
use asp_defs::{Bound, Counted, Element, Head, List, Literal, NoMemory, Rule};
use asp_template::{
    Domains, are_true, atom_template, bound_variables, capped, compile, disjunctive_variables,
    domain_at, number_at, numbers_at,
};
use std::alloc::Global;

/// The counted term of an element under ranks of its variables.
fn counted(
    alloc: Global,
    size: u32,
    element: &ElementTemplate,
    ranks: &[u32],
) -> Result<Counted, NoMemory>
    ensures { IfOk result (λ term. term ≡ record {
      atom = number_at size ranks.now element.now.atom;
      pos = map (number_at size ranks.now) element.now.cond.pos;
      neg = map (number_at size ranks.now) element.now.cond.neg;
    }) }
{
    let atom = number_at(size, ranks, &element.atom);
    let pos = numbers_at(alloc, size, ranks, element.cond.pos.as_slice())?;
    let neg = numbers_at(alloc, size, ranks, element.cond.neg.as_slice())?;
    Ok(Counted { atom, pos, neg })
}

/// Adds the counted term of an element under ranks of its variables, unless a comparison is false.
fn add_term(
    alloc: Global,
    out: &mut List<Counted>,
    size: u32,
    element: &ElementTemplate,
    ranks: &[u32],
) -> Result<(), NoMemory>
    ensures { OnOk result (out.new ≡ out.old ++ term_at size element.now ranks.now) }
{
    if are_true(ranks, element.cond.comparisons.as_slice()) {
        out.push(counted(alloc, size, element, ranks)?)?;
    }
    Ok(())
}

/// Adds the counted terms of an element in which the first variables have given ranks and the others run through their
/// domains, the last one fastest. It calls itself once per variable, of which a rule has at most 16.
fn add_terms(
    alloc: Global,
    out: &mut List<Counted>,
    size: u32,
    element: &ElementTemplate,
    domains: Domains<'_>,
    ranks: &mut [u32],
    given: usize,
) -> Result<(), NoMemory>
    requires within { given ≤ length ranks.old }
    requires whole { length (domains_of domains) ≡ length ranks.old }
    ensures added { OnOk result (out.new ≡ out.old
        ++ flat_map (λ rest. term_at size element.now (take given ranks.old ++ rest))
        (product (drop given (domains_of domains.entry)))) }
    ensures kept { take given ranks.new ≡ take given ranks.old }
{
    if given == ranks.len() {
        return add_term(alloc, out, size, element, ranks);
    }
    let domain = domain_at(domains, given);
    for rank in domain {
        ranks[given] = *rank;
        add_terms(alloc, out, size, element, domains, ranks, given + 1)?;
    }
    Ok(())
}

/// The ranks, and room for more behind them.
fn with_room(alloc: Global, ranks: &[u32], more: usize) -> Result<Vec<u32>, NoMemory>
    ensures { IfOk result (λ all. all.items ≡ ranks.now ++ replicate more 0) }
{
    let mut all = Vec::from_slice(alloc, ranks)?;
    for _place in 0..more {
        all.push(0)?;
    }
    Ok(all)
}

/// Adds the counted terms of an element under ranks of the body's variables, where its own run through a universe.
fn add_element(
    alloc: Global,
    out: &mut List<Counted>,
    size: u32,
    universe: &[u32],
    ranks: &[u32],
    element: &ElementTemplate,
) -> Result<(), NoMemory>
    ensures { OnOk result (out.new ≡ out.old ++ terms_at size universe.now ranks.now element.now) }
{
    let mut all = with_room(alloc, ranks, element.own)?;
    let domains = Domains::Same(universe, all.len());
    add_terms(
        alloc,
        out,
        size,
        element,
        domains,
        all.as_mut_slice(),
        ranks.len(),
    )
}

/// The counted terms of elements under ranks of the body's variables.
fn all_terms(
    alloc: Global,
    size: u32,
    universe: &[u32],
    ranks: &[u32],
    elements: &[ElementTemplate],
) -> Result<List<Counted>, NoMemory>
    ensures { IfOk result (λ terms. terms ≡ flat_map (terms_at size universe.now ranks.now) elements.now) }
{
    let mut terms = List::new(alloc);
    for element in elements {
        add_element(alloc, &mut terms, size, universe, ranks, element)?;
    }
    Ok(terms)
}

/// The ground bound under ranks of the body's variables.
fn ground_bound(
    alloc: Global,
    size: u32,
    universe: &[u32],
    bound: &BoundTemplate,
    ranks: &[u32],
) -> Result<Bound, NoMemory>
    ensures { IfOk result (λ made. made ≡ record {
      pos = map (number_at size ranks.now) bound.now.body.pos;
      neg = map (number_at size ranks.now) bound.now.body.neg;
      low = bound.now.low;
      high = bound.now.high;
      counted = flat_map (terms_at size universe.now ranks.now) bound.now.elements;
    }) }
{
    let pos = numbers_at(alloc, size, ranks, bound.body.pos.as_slice())?;
    let neg = numbers_at(alloc, size, ranks, bound.body.neg.as_slice())?;
    let counted = all_terms(alloc, size, universe, ranks, bound.elements.as_slice())?;
    Ok(Bound {
        pos,
        neg,
        low: bound.low,
        high: bound.high,
        counted,
    })
}

/// Adds the ground bound under ranks of the body's variables, unless a comparison is false.
fn add_bound(
    alloc: Global,
    out: &mut List<Bound>,
    size: u32,
    universe: &[u32],
    bound: &BoundTemplate,
    ranks: &[u32],
) -> Result<(), NoMemory>
    ensures { OnOk result (out.new ≡ out.old ++ bound_at size universe.now bound.now ranks.now) }
{
    if are_true(ranks, bound.body.comparisons.as_slice()) {
        out.push(ground_bound(alloc, size, universe, bound, ranks)?)?;
    }
    Ok(())
}

/// Adds the ground bounds in which the first variables have given ranks and the others run through their domains, the last
/// one fastest. It calls itself once per variable, of which a rule has at most 16.
fn add_bounds(
    alloc: Global,
    out: &mut List<Bound>,
    size: u32,
    universe: &[u32],
    bound: &BoundTemplate,
    domains: Domains<'_>,
    ranks: &mut [u32],
    given: usize,
) -> Result<(), NoMemory>
    requires within { given ≤ length ranks.old }
    requires whole { length (domains_of domains) ≡ length ranks.old }
    ensures added { OnOk result (out.new ≡ out.old
        ++ flat_map (λ rest. bound_at size universe.now bound.now (take given ranks.old ++ rest))
        (product (drop given (domains_of domains.entry)))) }
    ensures kept { take given ranks.new ≡ take given ranks.old }
{
    if given == ranks.len() {
        return add_bound(alloc, out, size, universe, bound, ranks);
    }
    let domain = domain_at(domains, given);
    for rank in domain {
        ranks[given] = *rank;
        add_bounds(alloc, out, size, universe, bound, domains, ranks, given + 1)?;
    }
    Ok(())
}

/// Adds the ground bounds where each of so many variables of the body runs through the universe, the last one fastest.
fn add_all_bounds(
    alloc: Global,
    out: &mut List<Bound>,
    size: u32,
    universe: &[u32],
    bound: &BoundTemplate,
    count: usize,
) -> Result<(), NoMemory>
    ensures { OnOk result (out.new ≡ out.old ++ bounds_over size universe.now bound.now count) }
{
    let domains = Domains::Same(universe, count);
    let mut ranks = vec![in alloc; 0_u32; count]?;
    add_bounds(
        alloc,
        out,
        size,
        universe,
        bound,
        domains,
        ranks.as_mut_slice(),
        0,
    )
}

/// The template of an element.
fn element_template_of(
    alloc: Global,
    vocabulary: &Vocabulary,
    body: &[Literal],
    element: &Element,
) -> Result<ElementTemplate, NoMemory>
    requires { IsOrdered vocabulary.now }
    ensures { IfOk result (λ template. template ≡ element_template vocabulary.now body.now element.now) }
{
    let found = bound_variables(body, element);
    let variables = found.as_slice();
    let atom = atom_template(alloc, vocabulary, variables, &element.atom)?;
    let none = List::new(alloc);
    let literals = element.cond.as_slice();
    let cond = compile(alloc, vocabulary, variables, false, none, &[], literals)?;
    let of_body = disjunctive_variables(&[], body).len();
    let own = variables.len().saturating_sub(of_body);
    Ok(ElementTemplate { own, atom, cond })
}

/// The templates of elements.
fn element_templates(
    alloc: Global,
    vocabulary: &Vocabulary,
    body: &[Literal],
    elements: &[Element],
) -> Result<List<ElementTemplate>, NoMemory>
    requires { IsOrdered vocabulary.now }
    ensures { IfOk result (λ templates. templates ≡ map (element_template vocabulary.now body.now) elements.now) }
{
    let mut templates = Vec::with_capacity(alloc, elements.len())?;
    for element in elements {
        templates.push(element_template_of(alloc, vocabulary, body, element)?)?;
    }
    Ok(List::from_vec(templates))
}

/// Whether a choice has a bound.
pub fn has_bound(low: Option<i32>, high: Option<i32>) -> bool
    ensures { result ≡ (is_some low || is_some high) }
{
    low.is_some() || high.is_some()
}

/// Adds the ground bounds of a choice with a bound.
fn add_choice(
    alloc: Global,
    out: &mut List<Bound>,
    vocabulary: &Vocabulary,
    universe: &[u32],
    low: Option<i32>,
    elements: &[Element],
    high: Option<i32>,
    body: &[Literal],
) -> Result<(), NoMemory>
    requires { IsOrdered vocabulary.now }
    ensures { OnOk result (out.new ≡ out.old ++ choice_bounds vocabulary.now universe.now low elements.now high body.now) }
{
    let found = disjunctive_variables(&[], body);
    let variables = found.as_slice();
    let none = List::new(alloc);
    let template = compile(alloc, vocabulary, variables, false, none, body, &[])?;
    let elements = element_templates(alloc, vocabulary, body, elements)?;
    let bound = BoundTemplate {
        body: template,
        low,
        high,
        elements,
    };
    let size = capped(vocabulary.constants.len());
    add_all_bounds(alloc, out, size, universe, &bound, variables.len())
}

/// Adds the ground bounds of a choice, which has some where it has a bound.
fn add_head(
    alloc: Global,
    out: &mut List<Bound>,
    vocabulary: &Vocabulary,
    universe: &[u32],
    low: Option<i32>,
    elements: &[Element],
    high: Option<i32>,
    body: &[Literal],
) -> Result<(), NoMemory>
    requires { IsOrdered vocabulary.now }
    ensures { OnOk result (out.new ≡ out.old
        ++ head_bounds_by vocabulary.now universe.now (Head.Choice low elements.now high) body.now) }
{
    if !has_bound(low, high) {
        return Ok(());
    }
    add_choice(alloc, out, vocabulary, universe, low, elements, high, body)
}

/// Adds the ground bounds of a rule: those of a choice with a bound.
fn add_rule_bounds(
    alloc: Global,
    out: &mut List<Bound>,
    vocabulary: &Vocabulary,
    universe: &[u32],
    rule: &Rule,
) -> Result<(), NoMemory>
    requires { IsOrdered vocabulary.now }
    ensures { OnOk result (out.new ≡ out.old ++ compiled_bounds vocabulary.now universe.now rule.now) }
{
    let body = rule.body.as_slice();
    match &rule.head {
        Head::Disj(_) => Ok(()),
        Head::Choice(low, elements, high) => {
            let elements = elements.as_slice();
            add_head(
                alloc, out, vocabulary, universe, *low, elements, *high, body,
            )
        }
    }
}

/// The ground bounds of the rules of a level.
pub fn level_bounds(
    alloc: Global,
    vocabulary: &Vocabulary,
    level: usize,
    rules: &[Rule],
) -> Result<List<Bound>, NoMemory>
    requires { IsOrdered vocabulary.now }
    ensures { IfOk result (λ bounds. bounds
        ≡ flat_map (compiled_bounds vocabulary.now (get_or vocabulary.now.universes level [])) rules.now) }
{
    let universe = universe_of(vocabulary.universes.as_slice(), level);
    let mut out = List::new(alloc);
    for rule in rules {
        add_rule_bounds(alloc, &mut out, vocabulary, universe, rule)?;
    }
    Ok(out)
}
