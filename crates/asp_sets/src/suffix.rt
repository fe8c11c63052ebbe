//! What stands before the text of an atom, where a text ends with it.
ghost use Rattle.std.specs.Prelude.{◌++◌, codes, option_copied};
ghost use Rattle.std.specs.List.{flat_map, join_by};
ghost use Rattle.asp_defs.specs.Sets.{const_text, ground_atom_text};
ghost use Rattle.asp_sets.specs.Ends.{IsBefore};

use asp_defs::{Const, GroundAtom};

/// What stands before the end of the text, where it ends so.
fn before<'a>(text: &'a [u8], end: &[u8]) -> Option<&'a [u8]>
    ensures { IsBefore text.now end.now (option_copied result) }
{
    text.strip_suffix(end)
}

/// What stands before the constant at the end of the text.
fn before_constant<'a>(text: &'a [u8], constant: &Const) -> Option<&'a [u8]>
    ensures { IsBefore text.now (const_text constant.now) (option_copied result) }
{
    match constant {
        Const::Int(value) => {
            let mut digits = itoa::Buffer::new();
            before(text, digits.format(*value).as_bytes())
        }
        Const::Sym(name) => before(text, name.as_slice()),
    }
}

/// What stands before the constant at the end of the text and a comma before it.
fn before_next<'a>(text: &'a [u8], constant: &Const) -> Option<&'a [u8]>
    ensures { IsBefore text.now (codes "," ++ const_text constant.now) (option_copied result) }
{
    before(before_constant(text, constant)?, b",")
}

/// What stands before the constants at the end of the text, each of which has a comma before it.
fn before_each<'a>(text: &'a [u8], constants: &[Const]) -> Option<&'a [u8]>
    ensures { IsBefore text.now (flat_map (λ x. codes "," ++ const_text x) constants.now) (option_copied result) }
{
    let mut left = text;
    for at in (0..constants.len()).rev() {
        left = before_next(left, &constants[at])?;
    }
    Some(left)
}

/// What stands before the constants at the end of the text, with commas between them.
fn before_joined<'a>(text: &'a [u8], constants: &[Const]) -> Option<&'a [u8]>
    ensures { IsBefore text.now (join_by const_text (codes ",") constants.now) (option_copied result) }
{
    match constants {
        [] => Some(text),
        [first, rest @ ..] => before_constant(before_each(text, rest)?, first),
    }
}

/// What stands before the constants at the end of the text, with commas between them and in parentheses.
fn before_enclosed<'a>(text: &'a [u8], constants: &[Const]) -> Option<&'a [u8]>
    ensures { IsBefore text.now (codes "(" ++ join_by const_text (codes ",") constants.now ++ codes ")") (option_copied result) }
{
    before(before_joined(before(text, b")")?, constants)?, b"(")
}

/// What stands before the atom at the end of the text.
fn before_atom<'a>(text: &'a [u8], atom: &GroundAtom) -> Option<&'a [u8]>
    ensures { IsBefore text.now (ground_atom_text atom.now) (option_copied result) }
{
    if atom.args.is_empty() {
        before(text, atom.name.as_slice())
    } else {
        before(
            before_enclosed(text, atom.args.as_slice())?,
            atom.name.as_slice(),
        )
    }
}

/// What stands before the atom at the end of the text and a comma and a blank before it.
pub(crate) fn before_member<'a>(text: &'a [u8], atom: &GroundAtom) -> Option<&'a [u8]>
    ensures { IsBefore text.now (codes ", " ++ ground_atom_text atom.now) (option_copied result) }
{
    before(before_atom(text, atom)?, b", ")
}
