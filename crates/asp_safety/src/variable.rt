//! Variables, in the order in which they are written.
ghost use Rattle.std.specs.Prelude.{◌≡◌, ◌++◌, OnOk, IfOk, option_map};
ghost use Rattle.std.specs.List.{flat_map};
ghost use Rattle.std.specs.Option.{option_to_list};
ghost use Rattle.asp_defs.specs.Instances.{term_variables};
ghost use Rattle.asp_safety.specs.Variables.{term_of, terms_of};

use asp_defs::{NoMemory, Term};
use asp_walk::Terms;
use std::alloc::Global;

/// A variable of a rule. A name borrows its bytes.
#[derive(Clone, Copy, Debug, PartialEq, Eq, Hash)]
pub enum Variable<'a> {
    /// A variable with these bytes as its name.
    Named(&'a [u8]),
    /// A nameless variable, by its number in the rule.
    Anon(u32),
}

impl Default for Variable<'_> {
    fn default() -> Self {
        Variable::Anon(0)
    }
}

/// The variable that a term is, if it is one.
pub fn variable_of(term: &Term) -> Option<Variable<'_>>
    ensures { option_to_list (option_map term_of result) ≡ term_variables term.now }
{
    match term {
        Term::Var(name) => Some(Variable::Named(name.as_slice())),
        Term::Anon(number) => Some(Variable::Anon(*number)),
        Term::Int(_) => None,
        Term::Sym(_) => None,
        Term::Range(..) => None,
    }
}

/// Adds the variable that a term is, if it is one.
fn add_term<'a>(out: &mut Vec<Variable<'a>>, term: &'a Term) -> Result<(), NoMemory>
    ensures { OnOk result (terms_of out.new.items ≡ terms_of out.old.items ++ term_variables term.now) }
{
    if let Some(variable) = variable_of(term) {
        out.push(variable)?;
    }
    Ok(())
}

/// Adds the variables among terms.
pub fn add_variables<'a>(out: &mut Vec<Variable<'a>>, terms: Terms<'a>) -> Result<(), NoMemory>
    ensures { OnOk result (terms_of out.new.items ≡ terms_of out.old.items ++ flat_map term_variables terms.entry) }
{
    for term in terms {
        add_term(out, term)?;
    }
    Ok(())
}

/// The variables among terms.
pub fn variables<'a>(alloc: Global, terms: Terms<'a>) -> Result<Vec<Variable<'a>>, NoMemory>
    ensures { IfOk result (λ out. terms_of out.items ≡ flat_map term_variables terms.entry) }
{
    let mut out = Vec::new(alloc);
    add_variables(&mut out, terms)?;
    Ok(out)
}
