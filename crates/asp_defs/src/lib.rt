//! The types of a program, of a ground program and of the faults, and every definition that a contract of the
//! solver cites. The types stand in `src/`, the definitions in `specs/`, a module for each notion.
//!
//! In reading order: `list` (lists and names), `syntax` (a program as it is written), `ground` (a program over
//! numbered atoms), `faults` (why a text is refused).
#![tactic(auto)]

mod faults;
mod ground;
pub mod laws;
pub mod laws_text;
mod list;
mod syntax;

pub use faults::{Give, Kind, MOST_SHOWN, SizeFault, TextFault, Unknown, Var, Which};
pub use ground::{Bases, Bound, Const, Counted, Game, GroundAtom, GroundRule, Lit};
pub use list::{List, Name};
pub use std::alloc::AllocError as NoMemory;
pub use syntax::{Atom, Element, Head, Literal, Op, Part, Program, Quant, Rule, Term};
