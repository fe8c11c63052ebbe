//! The type of a program that passes the checks. It stands below the checks, so that what is made of such a program needs
//! no more than the promise. Only what has shown it makes a value: `asp_check` does.
#![tactic(auto)]

ghost use Rattle.std.specs.Prelude.{◌≡◌, IsTrue};
ghost use Rattle.asp_defs.specs.Checks.{is_checked};
ghost use Rattle.asp_checked.specs.Condition.{IsCheckable};

use asp_defs::Program;
use std::marker::Model;

/// A program that passes the checks: each of its variables is safe, its constraint part has constraints alone, and it
/// keeps the limits on levels, arguments, literals and variables. Contracts see it as its program.
#[derive(Debug, Drop)]
pub struct Checked {
    program: Program,
}

impl Model for Checked {
    ghost use Rattle.std.specs.Prelude.{IsTrue};
    ghost use Rattle.asp_defs.specs.declared.syntax.Program.{Program};
    ghost use Rattle.asp_defs.specs.Checks.{is_checked};
    ghost use Rattle.asp_checked.specs.Condition.{IsCheckable};

    ghost Value = { Program };

    ghost view = { λ c. c.program };

    ghost invariant = { λ c. IsTrue (is_checked c.program) × IsCheckable c.program };
}

impl Checked {
    /// A program that is known to pass the checks.
    pub fn new(program: Program) -> Checked
        requires checked { IsTrue (is_checked program) }
        requires checkable { IsCheckable program }
        ensures { result ≡ program }
    {
        Checked { program }
    }

    /// The program.
    pub fn program(&self) -> &Program
        ensures program { result.now ≡ self.now }
        ensures checked { IsTrue (is_checked self.now) }
        ensures checkable { IsCheckable self.now }
    {
        &self.program
    }
}
