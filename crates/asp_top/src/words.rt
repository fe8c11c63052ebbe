//! The words of the command line: which command they ask for, or which of them is refused.
ghost use Rattle.std.specs.Prelude.{◌≡◌, None, IfOk, [], map, string_bytes};
ghost use Rattle.asp_defs.specs.Words.{solve_task, settings_from, task_of_settings, check_task};
ghost use Rattle.asp_top.specs.Commands.{served_options, served_task, task_of_command, IsWithin};
ghost use Rattle.asp_top.specs.Options.{tuned};

use crate::options::{Options, read_options};

/// How hard to try.
#[derive(Debug, Clone, Copy, PartialEq, Eq)]
pub struct Tuning {
    /// How many literals each search may place.
    pub budget: u64,
    /// How many cells the history may take.
    pub cells: u64,
}

/// What a run is asked for.
#[derive(Debug, Clone, Copy, PartialEq, Eq)]
pub enum Command {
    /// Whether the program is coherent.
    Solve(Tuning),
    /// The program's canonical text, once it passed the checks.
    Check,
}

/// The command that the words ask for.
///
/// # Errors
///
/// The place, from 1, of the first word that can't be read, where a missing word counts too.
pub fn command_of(words: &[String]) -> Result<Command, u32>
    ensures task { task_of_command result ≡ served_task (map string_bytes words.now) }
    ensures within { IfOk result IsWithin }
{
    match words {
        [] => Err(1),
        [word, further @ ..] => match word.as_str() {
            "solve" => solve(further),
            "check" => check(further),
            _ => Err(1),
        },
    }
}

/// `solve` with the options that the words behind it are.
///
/// # Errors
///
/// The place of the first of them that can't be read.
fn solve(further: &[String]) -> Result<Command, u32>
    ensures task { task_of_command result
        ≡ task_of_settings solve_task (settings_from served_options 2 [] None (map string_bytes further.now)) }
    ensures within { IfOk result IsWithin }
{
    let none = Options {
        budget: None,
        cells: None,
    };
    match read_options(further, 2, none) {
        Ok(options) => Ok(Command::Solve(tuning_of(options))),
        Err(place) => Err(place),
    }
}

/// The tuning of the options: a budget of 10,000,000 and 20,000,000 cells where nothing else is set.
fn tuning_of(options: Options) -> Tuning
    ensures { result ≡ tuned options }
{
    Tuning {
        budget: options.budget.unwrap_or(10_000_000),
        cells: options.cells.unwrap_or(20_000_000),
    }
}

/// `check`, which takes no further word.
///
/// # Errors
///
/// The second word, where there is one.
fn check(further: &[String]) -> Result<Command, u32>
    ensures task { task_of_command result ≡ check_task (map string_bytes further.now) }
    ensures within { IfOk result IsWithin }
{
    if further.is_empty() {
        Ok(Command::Check)
    } else {
        Err(2)
    }
}
