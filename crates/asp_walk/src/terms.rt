//! The terms of a rule.
ghost use Rattle.std.specs.Prelude.{◌≡◌, ◌++◌};
ghost use Rattle.std.specs.List.{flat_map};
ghost use Rattle.std.specs.Iterator.{YieldsFirstRef, item_count};
ghost use Rattle.asp_defs.specs.Constants.{term_constants, rule_constants};
ghost use Rattle.asp_defs.specs.Instances.{term_variables, atom_variables, literal_variables};
ghost use Rattle.asp_defs.specs.Safety.{element_variables, rule_variables};
ghost use Rattle.asp_walk.specs.Written.{literal_of, literal_terms, rule_terms};

use crate::walk::{Walk, Written};
use asp_defs::{Atom, Element, Literal, Rule, Term};
use std::marker::Model;
use std::slice;

/// The terms that are left of a rule, seen as their list: the arguments of its atoms and the sides of its comparisons.
#[derive(Debug, Drop)]
pub struct Terms<'a> {
    /// What is left of an atom's arguments, or the left side of a comparison.
    first: &'a [Term],
    /// The right side of a comparison.
    second: &'a [Term],
    /// What comes behind them.
    walk: Walk<'a>,
}

impl<'a> Model for Terms<'a> {
    ghost use Rattle.std.specs.Prelude.{List, ◌++◌};
    ghost use Rattle.std.specs.List.{flat_map};
    ghost use Rattle.asp_defs.specs.declared.syntax.Term.{Term};
    ghost use Rattle.asp_walk.specs.Written.{literal_terms};

    ghost Value = { List Term };

    ghost view = { λ t. t.first.now ++ (t.second.now ++ flat_map literal_terms t.walk) };
}

/// The terms of a literal: the arguments of an atom, or the two sides of a comparison.
fn terms_of<'a>(written: Written<'a>) -> (&'a [Term], &'a [Term])
    ensures { result.0.now ++ result.1.now ≡ literal_terms (literal_of written.entry) }
{
    match written {
        Written::Atom(atom) => (atom.args.as_slice(), &[]),
        Written::Literal(Literal::Pos(atom)) => (atom.args.as_slice(), &[]),
        Written::Literal(Literal::Neg(atom)) => (atom.args.as_slice(), &[]),
        Written::Literal(Literal::Cmp(left, _, right)) => {
            (slice::from_ref(left), slice::from_ref(right))
        }
    }
}

impl<'a> Terms<'a> {
    /// The terms of a walk.
    fn of_walk(walk: Walk<'a>) -> Terms<'a>
        ensures { result ≡ flat_map literal_terms walk.entry }
    {
        Terms {
            first: &[],
            second: &[],
            walk,
        }
    }

    /// The arguments of an atom.
    pub fn of_atom(atom: &'a Atom) -> Terms<'a>
        ensures terms { result ≡ atom.now.args }
        ensures variables { flat_map term_variables result ≡ atom_variables atom.now }
    {
        Terms {
            first: atom.args.as_slice(),
            second: &[],
            walk: Walk::of_literals(&[]),
        }
    }

    /// The arguments of atoms.
    pub fn of_atoms(atoms: &'a [Atom]) -> Terms<'a>
        ensures terms { result ≡ flat_map (λ a. a.args) atoms.now }
        ensures variables { flat_map term_variables result ≡ flat_map atom_variables atoms.now }
    {
        Terms::of_walk(Walk::of_atoms(atoms, &[]))
    }

    /// The terms of literals.
    pub fn of_literals(literals: &'a [Literal]) -> Terms<'a>
        ensures terms { result ≡ flat_map literal_terms literals.now }
        ensures variables { flat_map term_variables result ≡ flat_map literal_variables literals.now }
    {
        Terms::of_walk(Walk::of_literals(literals))
    }

    /// The terms of an element: those of its atom, and then those of its condition.
    pub fn of_element(element: &'a Element) -> Terms<'a>
        ensures terms { result ≡ element.now.atom.args ++ flat_map literal_terms element.now.cond }
        ensures variables { flat_map term_variables result ≡ element_variables element.now }
    {
        Terms {
            first: element.atom.args.as_slice(),
            second: &[],
            walk: Walk::of_literals(element.cond.as_slice()),
        }
    }

    /// The terms of a rule.
    pub fn of_rule(rule: &'a Rule) -> Terms<'a>
        ensures terms { result ≡ rule_terms rule.now }
        ensures variables { flat_map term_variables result ≡ rule_variables rule.now }
        ensures constants { flat_map term_constants result ≡ rule_constants rule.now }
    {
        Terms::of_walk(Walk::of_rule(rule))
    }
}

impl<'a> Iterator for Terms<'a> {
    type Item = &'a Term;

    ghost next_gives = { YieldsFirstRef (λ left. left) };

    ghost remaining = { item_count (λ left. left) };

    fn next(&mut self) -> Option<&'a Term> {
        loop {
            if let Some((term, rest)) = self.first.split_first() {
                self.first = rest;
                return Some(term);
            }
            if let Some((term, rest)) = self.second.split_first() {
                self.second = rest;
                return Some(term);
            }
            let (first, second) = terms_of(self.walk.next()?);
            self.first = first;
            self.second = second;
        }
    }
}
