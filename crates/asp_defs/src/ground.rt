ghost use Rattle.std.specs.Prelude.{◌≡◌, IfOk};

use crate::list::{List, Name};
use crate::syntax::Quant;
use std::alloc::AllocError;

/// A constant: integers come before symbols, integers by value and symbols by their bytes.
#[derive(Debug, Drop)]
pub enum Const {
    Int(i32),
    Sym(Name),
}

impl Const {
    /// An equal constant, which takes no memory: a symbol shares its bytes.
    ///
    /// # Errors
    ///
    /// `AllocError` where the count of the owners of the bytes is full, at 2^63 - 1.
    pub fn copy(&self) -> Result<Const, AllocError>
        ensures { IfOk result (λ constant. constant ≡ self.now) }
    {
        match self {
            Const::Int(value) => Ok(Const::Int(*value)),
            Const::Sym(name) => Ok(Const::Sym(name.copy()?)),
        }
    }
}

/// An atom without variables.
#[derive(Debug, Drop)]
pub struct GroundAtom {
    pub name: Name,
    pub args: List<Const>,
}

/// A rule over numbered atoms. The body is true where all of `pos` and none of `neg` hold.
///
/// A rule that is no choice says that one of `head` holds where its body is true, so an empty `head` makes a
/// constraint. A choice has one head atom and leaves it free where its body is true.
#[derive(Debug, Drop)]
pub struct GroundRule {
    /// Whether the rule is a choice.
    pub choice: bool,
    /// The head's atoms.
    pub head: List<u32>,
    /// The positive body.
    pub pos: List<u32>,
    /// The negative body.
    pub neg: List<u32>,
}

/// An atom that a bound counts where its condition is true: all of `pos` and none of `neg` hold.
#[derive(Debug, Drop)]
pub struct Counted {
    /// The atom, which counts once in a bound.
    pub atom: u32,
    /// The condition's positive literals.
    pub pos: List<u32>,
    /// The condition's negative literals.
    pub neg: List<u32>,
}

/// A bound of a choice over numbered atoms: where its body is true, at least `low` and at most `high` of the counted
/// atoms hold.
#[derive(Debug, Drop)]
pub struct Bound {
    /// The positive body.
    pub pos: List<u32>,
    /// The negative body.
    pub neg: List<u32>,
    /// The least number.
    pub low: Option<i32>,
    /// The greatest number.
    pub high: Option<i32>,
    /// The counted atoms with their conditions.
    pub counted: List<Counted>,
}

/// The bases of a program with n levels.
#[derive(Debug, Drop)]
pub struct Bases {
    /// The atoms of the last base, ascending; an atom's number is its position here.
    pub atoms: List<GroundAtom>,
    /// For each level from 0 to n + 1 the ascending numbers of its base.
    pub members: List<List<u32>>,
}

/// A quantified ground program.
#[derive(Debug, Drop)]
pub struct Game {
    /// The quantifiers of the levels 1 to n.
    pub quants: List<Quant>,
    pub bases: Bases,
    /// The rules of the levels 1 to n, and last those of the constraint part, which is level n + 1.
    pub rules: List<List<GroundRule>>,
    /// The bounds of the same levels; the constraint part has none.
    pub bounds: List<List<Bound>>,
}

/// A literal over numbered atoms: the atom, or its negation.
#[derive(Debug, Clone, Copy, Default, PartialEq, Eq)]
pub struct Lit {
    pub atom: u32,
    pub positive: bool,
}
