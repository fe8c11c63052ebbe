//! Choices with a bound in the form in which they are instantiated.
use asp_defs::List;
use asp_template::{AtomTemplate, Template};

/// An element of a choice with a bound.
#[derive(Drop)]
pub struct ElementTemplate {
    /// How many variables it has beside those of the body, which come first.
    pub own: usize,
    /// Its atom.
    pub atom: AtomTemplate,
    /// Its condition, as a body without a head.
    pub cond: Template,
}

/// A choice's bound.
#[derive(Drop)]
pub struct BoundTemplate {
    /// The body, without a head.
    pub body: Template,
    /// The least number.
    pub low: Option<i32>,
    /// The greatest number.
    pub high: Option<i32>,
    /// The elements, whose instances are counted.
    pub elements: List<ElementTemplate>,
}
