//! The variables of a rule, each once, in the order of first occurrence. A checked rule has at most 16, so that they
//! stand in an array.
ghost use Rattle.std.specs.Prelude.{◌≡◌, map};
ghost use Rattle.std.specs.List.{flat_map, fold};
ghost use Rattle.asp_defs.specs.Instances.{same_variable, term_variables};
ghost use Rattle.asp_defs.specs.Safety.{is_variable_of};
ghost use Rattle.asp_safety.specs.Variables.{term_of};
ghost use Rattle.asp_template.specs.Variables.{with_variable, disjunctive_variables, element_variables, found_variables};

use arrayvec::ArrayVec;
use asp_defs::{Atom, Element, Literal, Term};
use asp_safety::{Variable, variable_of};
use asp_walk::Terms;

/// Room for one more variable than a checked rule has at most.
const VARIABLE_ROOM: usize = 17;

/// Variables, each once.
pub type Variables<'a> = ArrayVec<Variable<'a>, VARIABLE_ROOM>;

/// Whether two variables are the same.
pub fn is_same(left: Variable<'_>, right: Variable<'_>) -> bool
    ensures { result ≡ same_variable (term_of left.entry) (term_of right.entry) }
{
    match left {
        Variable::Named(name) => match right {
            Variable::Named(other) => name == other,
            Variable::Anon(_) => false,
        },
        Variable::Anon(number) => match right {
            Variable::Named(_) => false,
            Variable::Anon(other) => number == other,
        },
    }
}

/// Whether a variable is one of a list.
fn is_among(variables: &[Variable<'_>], variable: Variable<'_>) -> bool
    ensures { result ≡ is_variable_of (map term_of variables.now) (term_of variable.entry) }
{
    for other in variables {
        if is_same(variable, *other) {
            return true;
        }
    }
    false
}

/// Adds a variable, unless it stands there already.
fn add_variable<'a>(found: &mut Variables<'a>, variable: Variable<'a>)
    ensures { map term_of found.new.items ≡ with_variable (map term_of found.old.items) (term_of variable.entry) }
{
    if !is_among(found.as_slice(), variable) && !found.is_full() {
        found.push(variable);
    }
}

/// Adds a term where it is a variable.
fn add_term<'a>(found: &mut Variables<'a>, term: &'a Term)
    ensures { map term_of found.new.items ≡ fold with_variable (map term_of found.old.items) (term_variables term.now) }
{
    if let Some(variable) = variable_of(term) {
        add_variable(found, variable);
    }
}

/// Adds the variables among terms.
fn add_terms<'a>(found: &mut Variables<'a>, terms: Terms<'a>)
    ensures { map term_of found.new.items
        ≡ fold with_variable (map term_of found.old.items) (flat_map term_variables terms.entry) }
{
    for term in terms {
        add_term(found, term);
    }
}

/// The variables of a disjunctive rule: those of its head come first.
pub fn disjunctive_variables<'a>(atoms: &'a [Atom], body: &'a [Literal]) -> Variables<'a>
    ensures { map term_of result.items ≡ disjunctive_variables atoms.now body.now }
{
    let mut found = Variables::new();
    add_terms(&mut found, Terms::of_atoms(atoms));
    add_terms(&mut found, Terms::of_literals(body));
    found
}

/// The variables of an element with a rule's body: those of its atom come first, then those of its condition.
pub fn element_variables<'a>(body: &'a [Literal], element: &'a Element) -> Variables<'a>
    ensures { map term_of result.items ≡ element_variables body.now element.now }
{
    let mut found = Variables::new();
    add_terms(&mut found, Terms::of_element(element));
    add_terms(&mut found, Terms::of_literals(body));
    found
}

/// The variables of a body and of an element: those of the body come first.
pub fn bound_variables<'a>(body: &'a [Literal], element: &'a Element) -> Variables<'a>
    ensures { map term_of result.items ≡ found_variables body.now element.now }
{
    let mut found = Variables::new();
    add_terms(&mut found, Terms::of_literals(body));
    add_terms(&mut found, Terms::of_element(element));
    found
}
