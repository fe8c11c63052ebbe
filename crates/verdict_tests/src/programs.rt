//! Small programs over the atoms -a, -b, -c, a, b, c and d. A set of atoms is a mask: the bits 8, 4, 2 and 1 are a, b, c and d, and
//! each negation has its atom's bit four places higher. So sets ascend as numbers in the order in which they are listed.

/// A body or a condition: all of `needed` are true and none of `barred`.
#[derive(Clone, Copy)]
pub struct Literals {
    pub needed: u32,
    pub barred: u32,
}

/// An element of a choice: one atom, and its condition.
#[derive(Clone, Copy)]
pub struct Element {
    pub atom: u32,
    pub condition: Literals,
}

/// What stands before the body.
#[derive(Clone, Copy)]
pub enum Head {
    /// The atoms of a disjunction; none of a constraint.
    Some(u32),
    /// The least number, the elements, and the greatest number.
    Free(Option<u32>, [Element; 3], Option<u32>),
}

/// A rule or a choice: what stands before the body, and the body.
#[derive(Clone, Copy)]
pub struct Statement {
    pub head: Head,
    pub body: Literals,
}

/// The rules of a level, and whether it is universal.
#[derive(Clone, Copy)]
pub struct Level {
    pub universal: bool,
    pub statements: [Statement; 3],
}

/// Three levels, and constraints behind them.
#[derive(Clone, Copy)]
pub struct Program {
    pub levels: [Level; 3],
    pub constraints: [Literals; 2],
}
