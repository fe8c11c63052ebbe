//! The program and the game of a text, and how atoms and numbers are written. There is none where the text is refused, and
//! a row that needs one fails then by its name.
ghost use Rattle.std.specs.Prelude.{IfSome};
ghost use Rattle.asp_defs.specs.Games.{IsValid};

use asp_atoms::bases;
use asp_check::{Checked, check};
use asp_defs::{Const, Game, GroundAtom, Name};
use asp_ground::ground;
use asp_read::read;
use std::alloc::{AllocError, Global};
use std::fmt::Write;

/// The program of a text that passes the checks.
pub fn checked(alloc: Global, text: &str) -> Option<Checked> {
    let bytes = text.as_bytes();
    if bytes.len() > 1_048_576 {
        return None;
    }
    let Ok(program) = read(alloc, bytes) else {
        return None;
    };
    check(alloc, program).ok()
}

/// The game of a text.
pub fn game(alloc: Global, text: &str) -> Option<Game>
    ensures { IfSome result IsValid }
{
    let checked = checked(alloc, text)?;
    let Ok(bases) = bases(alloc, &checked) else {
        return None;
    };
    ground(alloc, &checked, bases).ok()
}

fn put_name(text: &mut String, name: &Name) -> Result<(), AllocError> {
    let bytes = name.as_slice();
    for byte in bytes {
        text.push(char::from(*byte))?;
    }
    Ok(())
}

fn put_constant(text: &mut String, constant: &Const) -> Result<(), AllocError> {
    match constant {
        Const::Int(value) => write!(text, "{value}"),
        Const::Sym(name) => put_name(text, name),
    }
}

/// Adds an atom as it stands in a text.
pub fn put_atom(text: &mut String, atom: &GroundAtom) -> Result<(), AllocError> {
    put_name(text, &atom.name)?;
    let args = atom.args.as_slice();
    if args.is_empty() {
        return Ok(());
    }
    let mut sign = '(';
    for constant in args {
        text.push(sign)?;
        put_constant(text, constant)?;
        sign = ',';
    }
    text.push(')')
}

/// Adds numbers in braces.
pub fn put_numbers(text: &mut String, numbers: &[u32]) -> Result<(), AllocError> {
    text.push('{')?;
    for number in numbers {
        write!(text, " {number}")?;
    }
    text.push_str(" }")
}
