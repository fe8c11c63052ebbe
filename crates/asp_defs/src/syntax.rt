ghost use Rattle.std.specs.Prelude.{◌≡◌};
ghost use Rattle.asp_defs.specs.ConstraintPart.{is_constraint};

use crate::list::{List, Name};

/// The quantifier of a level: some answer set of its rules, or every one.
#[derive(Debug, Clone, Copy, PartialEq, Eq)]
pub enum Quant {
    /// Some answer set.
    Exists,
    /// Every answer set.
    Forall,
}

/// A comparison of two terms.
#[derive(Debug, Clone, Copy, PartialEq, Eq)]
pub enum Op {
    /// Equal, `=`.
    Eq,
    /// Unequal, `!=` or `<>`.
    Ne,
    /// Less, `<`.
    Lt,
    /// Less or equal, `<=`.
    Le,
    /// Greater, `>`.
    Gt,
    /// Greater or equal, `>=`.
    Ge,
}

/// An argument of an atom or a side of a comparison.
#[derive(Debug, Drop)]
pub enum Term {
    /// An integer.
    Int(i32),
    /// A symbol.
    Sym(Name),
    /// A named variable.
    Var(Name),
    /// A nameless variable: the how-many-th of its rule, from 1.
    Anon(u32),
    /// The integers from the first to the second, in a fact alone.
    Range(i32, i32),
}

/// A predicate's name with its arguments.
#[derive(Debug, Drop)]
pub struct Atom {
    pub name: Name,
    pub args: List<Term>,
}

/// A member of a body.
#[derive(Debug, Drop)]
pub enum Literal {
    /// An atom.
    Pos(Atom),
    /// An atom behind `not`.
    Neg(Atom),
    /// A comparison.
    Cmp(Term, Op, Term),
}

/// A member of a choice: an atom that may be chosen where its condition is true.
#[derive(Debug, Drop)]
pub struct Element {
    pub atom: Atom,
    pub cond: List<Literal>,
}

/// The head of a rule. An empty disjunction makes the rule a constraint.
#[derive(Debug, Drop)]
pub enum Head {
    /// A disjunction of atoms.
    Disj(List<Atom>),
    /// A choice of elements, between a least and a greatest number of them where these are given.
    Choice(Option<i32>, List<Element>, Option<i32>),
}

/// A rule as it is written.
#[derive(Debug, Drop)]
pub struct Rule {
    pub head: Head,
    pub body: List<Literal>,
}

impl Rule {
    /// Whether the rule is a constraint: its head is a disjunction of no atoms.
    pub fn is_constraint(&self) -> bool
        ensures { result ≡ is_constraint self.now }
    {
        match &self.head {
            Head::Disj(atoms) => atoms.is_empty(),
            Head::Choice(..) => false,
        }
    }
}

/// A level: a quantifier over the answer sets of its rules.
#[derive(Debug, Drop)]
pub struct Part {
    pub quant: Quant,
    pub rules: List<Rule>,
}

/// A program: its levels from the outermost inwards, and its constraint part.
#[derive(Debug, Drop)]
pub struct Program {
    pub levels: List<Part>,
    pub cons: List<Rule>,
}
