//! Random constraints over the atoms a, b, c, d and e, of which the levels before have the first four, and random rules over
//! the first four. A set of atoms is a mask: the bits 1, 2, 4, 8 and 16 are a to e.

use crate::series::Series;
use std::alloc::AllocError;

/// A body: all of `needed` are true and none of `barred`.
#[derive(Clone, Copy)]
pub struct Body {
    needed: u32,
    barred: u32,
}

/// The bodies of three constraints.
pub type Constraints = [Body; 3];

const NAMES: [(u32, &str); 5] = [(1, "a"), (2, "b"), (4, "c"), (8, "d"), (16, "e")];

/// Each atom with one chance in four.
fn some_atoms(series: &mut Series) -> u32 {
    let first = series.next();
    let second = series.next();
    first & second & 0b11111
}

/// At least one literal, and none that contradicts another.
fn next_body(series: &mut Series) -> Body {
    let needed = some_atoms(series);
    let barred = some_atoms(series) & !needed;
    let is_empty = needed | barred == 0;
    Body {
        needed: if is_empty { 4 } else { needed },
        barred,
    }
}

/// The next constraints of a series.
pub fn constraints(series: &mut Series) -> Constraints {
    let first = next_body(series);
    let second = next_body(series);
    let third = next_body(series);
    [first, second, third]
}

/// Adds the atoms, the first one behind `before` and each other one behind `between`.
fn put_atoms(
    text: &mut String,
    atoms: u32,
    before: &'static str,
    between: &'static str,
) -> Result<(), AllocError> {
    let names: &[(u32, &str)] = &NAMES;
    let mut is_first = true;
    for (bit, name) in names {
        if atoms & *bit != 0 {
            text.push_str(if is_first { before } else { between })?;
            text.push_str(name)?;
            is_first = false;
        }
    }
    Ok(())
}

/// Adds the body, with what stands before and behind it.
fn put_constraint(text: &mut String, body: &Body) -> Result<(), AllocError> {
    put_atoms(text, body.needed, ":- ", ", ")?;
    let before = if body.needed == 0 {
        ":- not "
    } else {
        ", not "
    };
    put_atoms(text, body.barred, before, ", not ")?;
    text.push_str(".\n")
}

/// Adds a constraint for each body.
pub fn put_constraints(text: &mut String, bodies: &[Body]) -> Result<(), AllocError> {
    for body in bodies {
        put_constraint(text, body)?;
    }
    Ok(())
}

/// The heads of rules: a and b are outer atoms, and c and d the level's own.
const HEADS: [&str; 8] = ["", "c", "d", "c | d", "{c}", "{d}", "1 {c; d} 1", "a"];

/// A rule by the place of its head.
#[derive(Clone, Copy)]
pub struct Rule {
    head: u32,
    body: Body,
}

/// The rules of a level.
pub type Rules = [Rule; 4];

/// At least one literal on a to d, and none that contradicts another.
fn next_rule(series: &mut Series) -> Rule {
    let head = series.next() % 8;
    let Body { needed, barred } = next_body(series);
    let (needed, barred) = (needed & 0b1111, barred & 0b1111);
    let is_empty = needed | barred == 0;
    Rule {
        head,
        body: Body {
            needed: if is_empty { 1 } else { needed },
            barred,
        },
    }
}

/// The next rules of a series.
pub fn rules(series: &mut Series) -> Rules {
    let first = next_rule(series);
    let second = next_rule(series);
    let third = next_rule(series);
    let fourth = next_rule(series);
    [first, second, third, fourth]
}

/// The head at a place of the heads.
fn head_of(heads: &[&'static str], head: u32) -> &'static str {
    match heads.get(head as usize) {
        Some(text) => text,
        None => "",
    }
}

/// Adds the rules.
pub fn put_rules(text: &mut String, rules: &[Rule]) -> Result<(), AllocError> {
    for rule in rules {
        text.push_str(head_of(&HEADS, rule.head))?;
        text.push(' ')?;
        put_constraint(text, &rule.body)?;
    }
    Ok(())
}
