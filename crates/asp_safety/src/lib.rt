//! The safety of a rule: its variables, and the first one that no positive atom and no equation binds.
//!
//! In reading order: `variable` (the variables of a rule, in the order of the text), `bindings` (what a body binds by
//! itself, and what its equations link), `index` (where the links from a variable stand), `closure` (the variables that
//! are safe by them), `representatives` (the variables that equations join, by one of them), `safety` (the unsafe
//! variables of a rule).
#![tactic(auto)]

mod bindings;
mod closure;
mod index;
mod representatives;
mod safety;
mod variable;

pub use safety::{count_distinct, first_unsafe, shown};
pub use variable::{Variable, variable_of, variables};
