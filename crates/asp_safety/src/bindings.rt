//! What the literals of a body bind by themselves, and what their equations link.
ghost use Rattle.std.specs.Prelude.{◌≡◌, ◌++◌, ◌∷◌, [], OnOk};
ghost use Rattle.std.specs.List.{flat_map};
ghost use Rattle.asp_defs.specs.declared.syntax.Op.TheVariants.{Eq};
ghost use Rattle.asp_defs.specs.declared.syntax.Literal.TheVariants.{Cmp};
ghost use Rattle.asp_safety.specs.Variables.{term_of, terms_of};
ghost use Rattle.asp_safety.specs.Bindings.{bound_alone, links_of, literal_links};

use crate::variable::{Variable, add_variables, variable_of};
use asp_defs::{Literal, NoMemory, Op, Term};
use asp_walk::Terms;

/// An equation that makes its second variable safe where the first one is.
#[derive(Clone, Copy)]
pub struct Link<'a> {
    /// The variable that is safe first.
    pub from: Variable<'a>,
    /// The variable that is safe by it.
    pub to: Variable<'a>,
}

/// Adds the two links of an equation between variables.
pub fn add_both<'a>(
    links: &mut Vec<Link<'a>>,
    left: Variable<'a>,
    right: Variable<'a>,
) -> Result<(), NoMemory>
    ensures { OnOk result (links_of links.new.items
        ≡ links_of links.old.items ++ (term_of left.entry, term_of right.entry) ∷ (term_of right.entry, term_of left.entry) ∷ []) }
{
    links.push(Link {
        from: left,
        to: right,
    })?;
    links.push(Link {
        from: right,
        to: left,
    })?;
    Ok(())
}

/// Adds what an equation binds by itself, and its links.
fn add_equation<'a>(
    bound: &mut Vec<Variable<'a>>,
    links: &mut Vec<Link<'a>>,
    left: &'a Term,
    right: &'a Term,
) -> Result<(), NoMemory>
    ensures bound { OnOk result (terms_of bound.new.items
        ≡ terms_of bound.old.items ++ bound_alone (Cmp left.now Eq right.now)) }
    ensures links { OnOk result (links_of links.new.items
        ≡ links_of links.old.items ++ literal_links (Cmp left.now Eq right.now)) }
{
    match (variable_of(left), variable_of(right)) {
        (Some(left), Some(right)) => add_both(links, left, right),
        (Some(left), None) => Ok(bound.push(left)?),
        (None, Some(right)) => Ok(bound.push(right)?),
        (None, None) => Ok(()),
    }
}

/// Adds what a literal binds by itself, and its links.
fn add_binding<'a>(
    bound: &mut Vec<Variable<'a>>,
    links: &mut Vec<Link<'a>>,
    literal: &'a Literal,
) -> Result<(), NoMemory>
    ensures bound { OnOk result (terms_of bound.new.items ≡ terms_of bound.old.items ++ bound_alone literal.now) }
    ensures links { OnOk result (links_of links.new.items ≡ links_of links.old.items ++ literal_links literal.now) }
{
    match literal {
        Literal::Pos(atom) => add_variables(bound, Terms::of_atom(atom)),
        Literal::Cmp(left, Op::Eq, right) => add_equation(bound, links, left, right),
        _ => Ok(()),
    }
}

/// Adds what literals bind by themselves, and their links.
pub fn add_bindings<'a>(
    bound: &mut Vec<Variable<'a>>,
    links: &mut Vec<Link<'a>>,
    literals: &'a [Literal],
) -> Result<(), NoMemory>
    ensures bound { OnOk result (terms_of bound.new.items
        ≡ terms_of bound.old.items ++ flat_map bound_alone literals.now) }
    ensures links { OnOk result (links_of links.new.items
        ≡ links_of links.old.items ++ flat_map literal_links literals.now) }
{
    for literal in literals {
        add_binding(bound, links, literal)?;
    }
    Ok(())
}
