//! The instances of rules: a rule is compiled once, and its instances are made of the compiled form.
//!
//! In the compiled form, a template, a constant is its rank among the program's constants, a variable is its place in the
//! order of first occurrence, and an atom is the number of its predicate's first atom with its arguments. An instance is
//! then made of ranks alone: an atom's number is its predicate's first one with the ranks of its arguments read as
//! digits, and constants compare as their ranks do.
//!
//! In reading order: `template` (compiled rules), `ranks` (where constants and predicates stand), `variables` (those of
//! a rule, each once), `compiler` (a rule's template), `domains` (what its variables run through), `instances` (a template
//! under all ranks), `facts` (facts with intervals), `rules` (the instances of rules).
#![tactic(auto)]

mod compiler;
mod domains;
mod facts;
mod instances;
mod ranks;
mod rules;
mod template;
mod variables;

pub use compiler::{atom_template, compile};
pub use domains::{Domains, domain_at};
pub use instances::{are_true, number_at, numbers_at};
pub use ranks::capped;
pub use rules::add_rules;
pub use template::{AtomTemplate, Template};
pub use variables::{bound_variables, disjunctive_variables, element_variables};
