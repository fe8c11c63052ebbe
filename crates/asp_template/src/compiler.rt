//! The template of a rule.
ghost use Rattle.std.specs.Prelude.{◌≡◌, ◌∷◌, ◌++◌, [], map, IfOk, OnOk};
ghost use Rattle.std.specs.List.{fold, position_or_len};
ghost use Rattle.asp_defs.specs.Constants.{const_cmp};
ghost use Rattle.asp_defs.specs.Instances.{same_variable};
ghost use Rattle.asp_safety.specs.Variables.{term_of};
ghost use Rattle.asp_atoms.specs.Ascending.{Ascends};
ghost use Rattle.asp_template.specs.Ranks.{IsOrdered};
ghost use Rattle.asp_template.specs.Compiled.{slot_of, atom_template, comparison, with_literal, compiled};

use crate::ranks::{first_of, rank_of};
use crate::template::{AtomTemplate, Comparison, Slot, Template};
use crate::variables::is_same;
use asp_atoms::{ConstRef, Vocabulary};
use asp_defs::{Atom, Const, List, Literal, NoMemory, Op, Term};
use asp_safety::Variable;
use std::alloc::Global;

/// The place of a variable in a list, or the list's length where it is none of them.
fn place_of(variables: &[Variable<'_>], variable: Variable<'_>) -> usize
    ensures { result ≡ position_or_len (same_variable (term_of variable.entry)) (map term_of variables.now) }
{
    for (place, other) in variables.iter().enumerate() {
        if is_same(variable, *other) {
            return place;
        }
    }
    variables.len()
}

/// A term as a slot.
fn slot_of(constants: &[Const], variables: &[Variable<'_>], term: &Term) -> Slot
    requires { Ascends const_cmp constants.now }
    ensures { result ≡ slot_of constants.now (map term_of variables.now) term.now }
{
    match term {
        Term::Int(value) => Slot::Rank(rank_of(constants, ConstRef::Int(*value))),
        Term::Sym(name) => Slot::Rank(rank_of(constants, ConstRef::Sym(name.as_slice()))),
        Term::Var(name) => Slot::Variable(place_of(variables, Variable::Named(name.as_slice()))),
        Term::Anon(number) => Slot::Variable(place_of(variables, Variable::Anon(*number))),
        Term::Range(low, _) => Slot::Rank(rank_of(constants, ConstRef::Int(*low))),
    }
}

/// The terms of an atom as slots.
fn slots_of(
    alloc: Global,
    constants: &[Const],
    variables: &[Variable<'_>],
    terms: &[Term],
) -> Result<List<Slot>, NoMemory>
    requires { Ascends const_cmp constants.now }
    ensures { IfOk result (λ slots. slots ≡ map (slot_of constants.now (map term_of variables.now)) terms.now) }
{
    let mut slots = Vec::with_capacity(alloc, terms.len())?;
    for term in terms {
        slots.push(slot_of(constants, variables, term))?;
    }
    Ok(List::from_vec(slots))
}

/// An atom's template.
pub fn atom_template(
    alloc: Global,
    vocabulary: &Vocabulary,
    variables: &[Variable<'_>],
    atom: &Atom,
) -> Result<AtomTemplate, NoMemory>
    requires { IsOrdered vocabulary.now }
    ensures { IfOk result (λ template. template ≡ atom_template vocabulary.now (map term_of variables.now) atom.now) }
{
    let args = atom.args.as_slice();
    let first = first_of(
        vocabulary.predicates.as_slice(),
        atom.name.as_slice(),
        args.len(),
    );
    let slots = slots_of(alloc, vocabulary.constants.as_slice(), variables, args)?;
    Ok(AtomTemplate { first, slots })
}

/// The templates of atoms.
pub fn atom_templates(
    alloc: Global,
    vocabulary: &Vocabulary,
    variables: &[Variable<'_>],
    atoms: &[Atom],
) -> Result<List<AtomTemplate>, NoMemory>
    requires { IsOrdered vocabulary.now }
    ensures { IfOk result (λ templates. templates
        ≡ map (atom_template vocabulary.now (map term_of variables.now)) atoms.now) }
{
    let mut templates = Vec::with_capacity(alloc, atoms.len())?;
    for atom in atoms {
        templates.push(atom_template(alloc, vocabulary, variables, atom)?)?;
    }
    Ok(List::from_vec(templates))
}

/// A list of one template.
pub fn single(alloc: Global, template: AtomTemplate) -> Result<List<AtomTemplate>, NoMemory>
    ensures { IfOk result (λ templates. templates ≡ template ∷ []) }
{
    let mut templates = List::new(alloc);
    templates.push(template)?;
    Ok(templates)
}

/// The template of a head without a body.
pub fn bare(alloc: Global, choice: bool, heads: List<AtomTemplate>) -> Template
    ensures { result ≡ record { choice = choice; heads = heads; comparisons = []; pos = []; neg = [] } }
{
    Template {
        choice,
        heads,
        comparisons: List::new(alloc),
        pos: List::new(alloc),
        neg: List::new(alloc),
    }
}

/// A comparison of terms as one of slots.
fn comparison(
    constants: &[Const],
    variables: &[Variable<'_>],
    left: &Term,
    op: Op,
    right: &Term,
) -> Comparison
    requires { Ascends const_cmp constants.now }
    ensures { result ≡ comparison constants.now (map term_of variables.now) left.now op right.now }
{
    Comparison {
        left: slot_of(constants, variables, left),
        op,
        right: slot_of(constants, variables, right),
    }
}

/// Adds a literal to a template's body.
fn add_literal(
    alloc: Global,
    template: &mut Template,
    vocabulary: &Vocabulary,
    variables: &[Variable<'_>],
    literal: &Literal,
) -> Result<(), NoMemory>
    requires { IsOrdered vocabulary.now }
    ensures { OnOk result (template.new
        ≡ with_literal vocabulary.now (map term_of variables.now) template.old literal.now) }
{
    match literal {
        Literal::Pos(atom) => {
            let atom = atom_template(alloc, vocabulary, variables, atom)?;
            template.pos.push(atom)?;
        }
        Literal::Neg(atom) => {
            let atom = atom_template(alloc, vocabulary, variables, atom)?;
            template.neg.push(atom)?;
        }
        Literal::Cmp(left, op, right) => {
            let constants = vocabulary.constants.as_slice();
            let comparison = comparison(constants, variables, left, *op, right);
            template.comparisons.push(comparison)?;
        }
    }
    Ok(())
}

/// Adds literals to a template's body.
fn add_literals(
    alloc: Global,
    template: &mut Template,
    vocabulary: &Vocabulary,
    variables: &[Variable<'_>],
    literals: &[Literal],
) -> Result<(), NoMemory>
    requires { IsOrdered vocabulary.now }
    ensures { OnOk result (template.new
        ≡ fold (with_literal vocabulary.now (map term_of variables.now)) template.old literals.now) }
{
    for literal in literals {
        add_literal(alloc, template, vocabulary, variables, literal)?;
    }
    Ok(())
}

/// The template of a head with the literals of a body and those of a condition behind them.
pub fn compile(
    alloc: Global,
    vocabulary: &Vocabulary,
    variables: &[Variable<'_>],
    choice: bool,
    heads: List<AtomTemplate>,
    body: &[Literal],
    cond: &[Literal],
) -> Result<Template, NoMemory>
    requires { IsOrdered vocabulary.now }
    ensures { IfOk result (λ template. template
        ≡ compiled vocabulary.now (map term_of variables.now) choice heads (body.now ++ cond.now)) }
{
    let mut template = bare(alloc, choice, heads);
    add_literals(alloc, &mut template, vocabulary, variables, body)?;
    add_literals(alloc, &mut template, vocabulary, variables, cond)?;
    Ok(template)
}
