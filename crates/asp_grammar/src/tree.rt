use crate::state::State;
use asp_defs::{Atom, Element, Head, List, Literal, Name, Op, Part, Quant, Rule, Term};

/// A program as far as it was read: its finished parts, and what of the open ones is known.
#[derive(Debug, Drop)]
pub struct Tree {
    /// The finished levels.
    pub levels: List<Part>,
    /// The open level's quantifier.
    pub quant: Quant,
    /// Whether the constraint part is open, and no level.
    pub in_constraint: bool,
    /// The finished rules of the open part.
    pub rules: List<Rule>,
    /// The open rule's head, once it is whole.
    pub head: Head,
    /// The finished atoms of the open disjunction.
    pub atoms: List<Atom>,
    /// The open choice's lower bound.
    pub lower: Option<i32>,
    /// The finished elements of the open choice.
    pub elements: List<Element>,
    /// The open element's atom, once it is whole.
    pub element: Atom,
    /// The finished literals of the open body or condition.
    pub literals: List<Literal>,
    /// The open atom's name.
    pub name: Name,
    /// The open atom's finished arguments.
    pub args: List<Term>,
    /// The open comparison's left side.
    pub left: Term,
    /// The open comparison's operator.
    pub op: Op,
    /// The number that is the last argument or begins an interval.
    pub low: i32,
    /// How many nameless variables the open rule has so far.
    pub anonymous: u32,
}

/// The tokens so far: the state behind them, and what they are.
#[derive(Debug, Drop)]
pub struct Builder {
    pub state: State,
    pub tree: Tree,
}
