//! The literals of a rule, each atom of its head as one.
ghost use Rattle.std.specs.Prelude.{◌≡◌, ◌++◌};
ghost use Rattle.std.specs.Iterator.{YieldsFirstBy, item_count};
ghost use Rattle.asp_walk.specs.Written.{
  atoms_written,
  elements_written,
  rule_written,
  literal_of,
};

use asp_defs::{Atom, Element, Head, Literal, Rule};
use std::marker::Model;

/// An atom of a head, or a literal of a condition or a body.
#[derive(Clone, Copy, Debug)]
pub enum Written<'a> {
    /// An atom of a head.
    Atom(&'a Atom),
    /// A literal of a condition or a body.
    Literal(&'a Literal),
}

/// What is left of a rule, seen as a list of literals: an atom of the head counts as a positive one.
#[derive(Debug, Drop)]
pub struct Walk<'a> {
    /// The literals that come first: what is left of an element's condition.
    literals: &'a [Literal],
    /// The atoms of a disjunction.
    atoms: &'a [Atom],
    /// The elements of a choice.
    elements: &'a [Element],
    /// The body.
    body: &'a [Literal],
}

impl<'a> Model for Walk<'a> {
    ghost use Rattle.std.specs.Prelude.{List, ◌++◌};
    ghost use Rattle.asp_defs.specs.declared.syntax.Literal.{Literal};
    ghost use Rattle.asp_walk.specs.Written.{atoms_written, elements_written};

    ghost Value = { List Literal };

    ghost view = { λ w. w.literals.now ++ (atoms_written w.atoms.now ++ (elements_written w.elements.now ++ w.body.now)) };
}

impl<'a> Walk<'a> {
    /// The literals themselves.
    pub fn of_literals(literals: &'a [Literal]) -> Walk<'a>
        ensures { result ≡ literals.now }
    {
        Walk {
            literals: &[],
            atoms: &[],
            elements: &[],
            body: literals,
        }
    }

    /// The atoms of a disjunction and a body.
    pub fn of_atoms(atoms: &'a [Atom], body: &'a [Literal]) -> Walk<'a>
        ensures { result ≡ atoms_written atoms.now ++ body.now }
    {
        Walk {
            literals: &[],
            atoms,
            elements: &[],
            body,
        }
    }

    /// The elements of a choice and a body.
    pub fn of_elements(elements: &'a [Element], body: &'a [Literal]) -> Walk<'a>
        ensures { result ≡ elements_written elements.now ++ body.now }
    {
        Walk {
            literals: &[],
            atoms: &[],
            elements,
            body,
        }
    }

    /// The head and the body of a rule.
    pub fn of_rule(rule: &'a Rule) -> Walk<'a>
        ensures { result ≡ rule_written rule.now }
    {
        let body = rule.body.as_slice();
        match &rule.head {
            Head::Disj(atoms) => Walk::of_atoms(atoms.as_slice(), body),
            Head::Choice(_, elements, _) => Walk::of_elements(elements.as_slice(), body),
        }
    }
}

impl<'a> Iterator for Walk<'a> {
    type Item = Written<'a>;

    ghost next_gives = { YieldsFirstBy literal_of (λ left. left) };

    ghost remaining = { item_count (λ left. left) };

    fn next(&mut self) -> Option<Written<'a>> {
        if let Some((literal, rest)) = self.literals.split_first() {
            self.literals = rest;
            return Some(Written::Literal(literal));
        }
        if let Some((atom, rest)) = self.atoms.split_first() {
            self.atoms = rest;
            return Some(Written::Atom(atom));
        }
        if let Some((element, rest)) = self.elements.split_first() {
            self.elements = rest;
            self.literals = element.cond.as_slice();
            return Some(Written::Atom(&element.atom));
        }
        let (literal, rest) = self.body.split_first()?;
        self.body = rest;
        Some(Written::Literal(literal))
    }
}
