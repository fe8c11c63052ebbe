//! The texts of programs and of sets.

use crate::programs::{Element, Head, Level, Literals, Program, Statement};
use std::alloc::{AllocError, Global};

/// The atoms' bits and names.
const NAMES: [(u32, &str); 7] = [
    (128, "-a"),
    (64, "-b"),
    (32, "-c"),
    (8, "a"),
    (4, "b"),
    (2, "c"),
    (1, "d"),
];

/// Adds the atoms, the first one behind `before` and each other one behind `between`.
fn put_atoms(
    text: &mut String,
    atoms: u32,
    before: &'static str,
    between: &'static str,
) -> Result<(), AllocError> {
    let names: &[(u32, &str)] = &NAMES;
    let mut is_first = true;
    for (bit, name) in names {
        if atoms & *bit != 0 {
            text.push_str(if is_first { before } else { between })?;
            text.push_str(name)?;
            is_first = false;
        }
    }
    Ok(())
}

/// Adds literals behind a sign, and nothing where there are none.
fn put_literals(
    text: &mut String,
    literals: Literals,
    sign: &'static str,
    sign_not: &'static str,
) -> Result<(), AllocError> {
    put_atoms(text, literals.needed, sign, ", ")?;
    let before = if literals.needed == 0 {
        sign_not
    } else {
        ", not "
    };
    put_atoms(text, literals.barred, before, ", not ")
}

fn put_element(text: &mut String, element: &Element) -> Result<(), AllocError> {
    put_atoms(text, element.atom, "", "")?;
    put_literals(text, element.condition, " : ", " : not ")
}

fn put_elements(text: &mut String, elements: &[Element]) -> Result<(), AllocError> {
    text.push('{')?;
    let mut is_first = true;
    for element in elements {
        text.push_str(if is_first { "" } else { "; " })?;
        put_element(text, element)?;
        is_first = false;
    }
    text.push('}')
}

fn digit(number: u32) -> &'static str {
    match number {
        0 => " 0 ",
        1 => " 1 ",
        2 => " 2 ",
        _ => " 3 ",
    }
}

fn put_bound(text: &mut String, bound: Option<u32>) -> Result<(), AllocError> {
    match bound {
        Some(number) => text.push_str(digit(number)),
        None => Ok(()),
    }
}

fn put_head(text: &mut String, head: &Head) -> Result<(), AllocError> {
    match head {
        Head::Some(atoms) => put_atoms(text, *atoms, "", " | "),
        Head::Free(least, elements, most) => {
            put_bound(text, *least)?;
            put_elements(text, elements)?;
            put_bound(text, *most)
        }
    }
}

fn put_statement(text: &mut String, statement: &Statement) -> Result<(), AllocError> {
    put_head(text, &statement.head)?;
    text.push_str(" :- ")?;
    put_literals(text, statement.body, "", "not ")?;
    text.push_str(".\n")
}

fn put_level(text: &mut String, level: &Level) -> Result<(), AllocError> {
    text.push_str(if level.universal {
        "%@forall\n"
    } else {
        "%@exists\n"
    })?;
    for statement in &level.statements {
        put_statement(text, statement)?;
    }
    Ok(())
}

fn put_constraints(text: &mut String, constraints: &[Literals]) -> Result<(), AllocError> {
    text.push_str("%@constraint\n")?;
    for body in constraints {
        text.push_str(":- ")?;
        put_literals(text, *body, "", "not ")?;
        text.push_str(".\n")?;
    }
    Ok(())
}

fn put_levels(text: &mut String, levels: &[Level]) -> Result<(), AllocError> {
    for level in levels {
        put_level(text, level)?;
    }
    Ok(())
}

/// The text of a program.
pub fn text_of(alloc: Global, program: &Program) -> Result<String, AllocError> {
    let mut text = String::new(alloc);
    put_levels(&mut text, &program.levels)?;
    put_constraints(&mut text, &program.constraints)?;
    Ok(text)
}

/// Adds a set in braces.
pub fn put_set(text: &mut String, set: u32) -> Result<(), AllocError> {
    text.push('{')?;
    put_atoms(text, set, "", " ")?;
    text.push('}')
}
