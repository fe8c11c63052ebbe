//! The cube of a move: outer moves after which a level has a move that a cube of the next level holds.
//!
//! A move of a level rests on some of the outer atoms: with these as they are, whatever the others are, the level's own part
//! of the move stays a move. The fewer they are, the more outer moves the cube answers. So few outer atoms are taken:
//!
//! - the atoms of `won`
//! - those of rules that found the own atoms of the move one after another, each time a rule that had the fewest
//!   atoms not taken yet when it became ready; where own atoms support each other only together, those of all rules that may support them
//! - the atoms of a bound, or one that makes its body false
//! - an atom of each rule that only an outer atom satisfies, where none that is taken does; those that turn out needless go
//!
//! In reading order:
//!
//! - `level`: the parts of a level
//! - `known`: what is known of atoms, bodies and rules with the marked atoms alone fixed
//! - `marks`: the marks of literals' atoms
//! - `support`: rules that may support atoms
//! - `rules`: what is marked for rules
//! - `thinning`: few atoms that satisfy rules
//! - `waiting`: the rules whose turn comes
//! - `founding`: own atoms that are founded one after another
//! - `bounds`: what is marked for bounds
//! - `cube`: the call `move_cube`
#![tactic(auto)]

mod bounds;
mod cube;
mod founding;
mod known;
mod level;
mod marks;
mod rules;
mod support;
mod thinning;
mod waiting;

pub use cube::move_cube;
pub use founding::found_atoms;
pub use level::{base_of, level_bounds, level_rules};
