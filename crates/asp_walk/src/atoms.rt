//! The atoms of a rule.
ghost use Rattle.std.specs.Prelude.{◌≡◌, map, option_map};
ghost use Rattle.std.specs.List.{flat_map};
ghost use Rattle.std.specs.Option.{option_to_list};
ghost use Rattle.std.specs.Iterator.{YieldsFirstRef, item_count};
ghost use Rattle.asp_defs.specs.Bases.{atom_predicate, rule_predicates};
ghost use Rattle.asp_defs.specs.Limits.{literal_atoms, rule_atoms};
ghost use Rattle.asp_walk.specs.Written.{literal_of};

use crate::walk::{Walk, Written};
use asp_defs::{Atom, Literal, Rule};
use std::marker::Model;

/// The atoms that are left of a rule, seen as their list.
#[derive(Debug, Drop)]
pub struct Atoms<'a> {
    walk: Walk<'a>,
}

impl<'a> Model for Atoms<'a> {
    ghost use Rattle.std.specs.Prelude.{List};
    ghost use Rattle.std.specs.List.{flat_map};
    ghost use Rattle.asp_defs.specs.declared.syntax.Atom.{Atom};
    ghost use Rattle.asp_defs.specs.Limits.{literal_atoms};

    ghost Value = { List Atom };

    ghost view = { λ a. flat_map literal_atoms a.walk };
}

/// The atom of a literal, if it has one.
fn atom_of<'a>(written: Written<'a>) -> Option<&'a Atom>
    ensures { option_to_list (option_map (λ a. a.now) result) ≡ literal_atoms (literal_of written.entry) }
{
    match written {
        Written::Atom(atom) => Some(atom),
        Written::Literal(Literal::Pos(atom)) => Some(atom),
        Written::Literal(Literal::Neg(atom)) => Some(atom),
        Written::Literal(Literal::Cmp(..)) => None,
    }
}

impl<'a> Atoms<'a> {
    /// The atoms of a rule.
    pub fn of_rule(rule: &'a Rule) -> Atoms<'a>
        ensures atoms { result ≡ rule_atoms rule.now }
        ensures predicates { map atom_predicate result ≡ rule_predicates rule.now }
    {
        Atoms {
            walk: Walk::of_rule(rule),
        }
    }
}

impl<'a> Iterator for Atoms<'a> {
    type Item = &'a Atom;

    ghost next_gives = { YieldsFirstRef (λ left. left) };

    ghost remaining = { item_count (λ left. left) };

    fn next(&mut self) -> Option<&'a Atom> {
        loop {
            if let Some(atom) = atom_of(self.walk.next()?) {
                return Some(atom);
            }
        }
    }
}
