//! Rules in the form in which they are instantiated.
use asp_defs::{List, Op};

/// A term of a template.
#[derive(Clone, Copy)]
pub enum Slot {
    /// The constant with this rank.
    Rank(u32),
    /// The variable with this place in the order of first occurrence.
    Variable(usize),
}

/// An atom of a template.
#[derive(Drop)]
pub struct AtomTemplate {
    /// The number of its predicate's first atom.
    pub first: u32,
    /// Its arguments.
    pub slots: List<Slot>,
}

/// A comparison of a template.
#[derive(Clone, Copy)]
pub struct Comparison {
    /// What stands before the operator.
    pub left: Slot,
    /// How the two ranks have to compare.
    pub op: Op,
    /// What stands behind the operator.
    pub right: Slot,
}

/// A rule that is instantiated as one.
#[derive(Drop)]
pub struct Template {
    /// Whether the instances are choices.
    pub choice: bool,
    /// The atoms of the head.
    pub heads: List<AtomTemplate>,
    /// The comparisons of the body: an instance is left out where one is false.
    pub comparisons: List<Comparison>,
    /// The positive atoms of the body.
    pub pos: List<AtomTemplate>,
    /// The negative atoms of the body.
    pub neg: List<AtomTemplate>,
}
