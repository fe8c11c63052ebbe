//! Programs from the numbers of a series.

use crate::programs::{Element, Head, Level, Literals, Program, Statement};
use crate::series::Series;

/// One of the atoms that the level may name: a, b and -a in level 0, also c and -b in level 1, and also d and -c in level 2.
fn atom(series: &mut Series, level: u32) -> u32 {
    let (names, negated) = match level {
        0 => (2, 1),
        1 => (3, 2),
        _ => (4, 3),
    };
    if series.next() % 2 == 0 {
        8u32 >> (series.next() % names)
    } else {
        128u32 >> (series.next() % negated)
    }
}

/// An atom of a head: mostly one that the levels before may not name.
fn head_atom(series: &mut Series, level: u32) -> u32 {
    if level == 0 || series.next() % 4 == 0 {
        return atom(series, level);
    }
    let (name, negated) = if level == 1 { (2, 64) } else { (1, 32) };
    if series.next() % 2 == 0 {
        name
    } else {
        negated
    }
}

/// At most one atom that has to be true, and at most one that may not be.
fn literals(series: &mut Series, level: u32) -> Literals {
    let form = series.next() % 4;
    let needed = atom(series, level);
    let barred = atom(series, level);
    Literals {
        needed: if form % 2 == 1 { needed } else { 0 },
        barred: if form / 2 == 1 { barred } else { 0 },
    }
}

fn element(series: &mut Series, level: u32) -> Element {
    let atom = head_atom(series, level);
    let bare = series.next() % 4 == 0;
    let condition = literals(series, level);
    Element {
        atom,
        condition: if bare {
            Literals {
                needed: 0,
                barred: 0,
            }
        } else {
            condition
        },
    }
}

/// A number from 0 to 3, or none.
fn bound(series: &mut Series) -> Option<u32> {
    let number = series.next() % 8;
    if number < 4 { Some(number) } else { None }
}

/// A choice more often than not, else one atom, two, or none.
fn head(series: &mut Series, level: u32) -> Head {
    let form = series.next() % 8;
    if form < 5 {
        let least = bound(series);
        let most = bound(series);
        let first = element(series, level);
        let second = element(series, level);
        let third = element(series, level);
        return Head::Free(least, [first, second, third], most);
    }
    let first = head_atom(series, level);
    let second = head_atom(series, level);
    match form {
        5 => Head::Some(first),
        6 => Head::Some(first | second),
        _ => Head::Some(0),
    }
}

fn statement(series: &mut Series, level: u32) -> Statement {
    let head = head(series, level);
    let body = literals(series, level);
    Statement { head, body }
}

fn level(series: &mut Series, place: u32) -> Level {
    let universal = series.next() % 2 == 0;
    let first = statement(series, place);
    let second = statement(series, place);
    let third = statement(series, place);
    Level {
        universal,
        statements: [first, second, third],
    }
}

/// The next program of a series.
pub fn program(series: &mut Series) -> Program {
    let first = level(series, 0);
    let second = level(series, 1);
    let third = level(series, 2);
    let constraint = literals(series, 2);
    let other = literals(series, 2);
    Program {
        levels: [first, second, third],
        constraints: [constraint, other],
    }
}
