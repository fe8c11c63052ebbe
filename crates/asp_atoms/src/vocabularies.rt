//! What numbering by arithmetic needs.
use asp_defs::{Const, List, Name};

/// A predicate with the number of its first atom.
#[derive(Debug, Drop)]
pub struct NumberedPredicate {
    /// Its name.
    pub name: Name,
    /// How many arguments it has.
    pub arity: u32,
    /// How many atoms the predicates before it have.
    pub first: u32,
}

/// The constants and predicates of a program with what numbering by arithmetic needs: an atom's number is its
/// predicate's first number and, behind it, the ranks of its arguments, read in the base of the number of constants, the
/// first argument being the most significant.
#[derive(Debug, Drop)]
pub struct Vocabulary {
    /// The constants of the last universe, ascending.
    pub constants: List<Const>,
    /// For each level from 0 to n + 1 the ranks in `constants` of its universe's members, ascending.
    pub universes: List<List<u32>>,
    /// The predicates of the last level ascending, each with the number of its first atom.
    pub predicates: List<NumberedPredicate>,
    /// How many atoms they have over all constants.
    pub atoms: u32,
}
