//! How many nogoods rule out independent loops of two atoms, where each denies one atom.

use crate::minimality::ask_nogood;
use crate::programs::{Shape, is_model, is_true, rules_of};
use crate::texts::expect_number;
use asp_defs::{GroundRule, NoMemory};
use std::alloc::Global;
use std::test::Fail;

/// The rule that the second atom supports the first.
fn link(first: u32, second: u32) -> Shape {
    Shape {
        choice: false,
        head: 1 << (first % 8),
        pos: 1 << (second % 8),
        neg: 0,
    }
}

/// So many loops of two atoms each.
fn loops(alloc: Global, count: u32) -> Result<Vec<Shape>, NoMemory> {
    let mut shapes = Vec::new(alloc);
    for number in 0..count.min(4) {
        shapes.push(link(2 * number, 2 * number + 1))?;
        shapes.push(link(2 * number + 1, 2 * number))?;
    }
    Ok(shapes)
}

/// Whether the set satisfies the rules and the clauses.
fn is_candidate(shapes: &[Shape], clauses: &[u32], set: u32) -> bool {
    is_model(shapes, set) && clauses.iter().all(|clause| is_true(*clause, set))
}

/// Whether the set is left, as an answer set; else its nogood is added.
fn is_left(
    alloc: Global,
    rules: &[GroundRule],
    clauses: &mut Vec<u32>,
    set: u32,
) -> Result<bool, NoMemory> {
    match ask_nogood(alloc, rules, 0, set, Some(0))? {
        Some(clause) => {
            clauses.push(clause)?;
            Ok(false)
        }
        None => Ok(true),
    }
}

/// How many nogoods the candidates give, the last set first, until none but answer sets is left; and how many are left.
fn rule_out(
    alloc: Global,
    shapes: &[Shape],
    rules: &[GroundRule],
    sets: u32,
) -> Result<(usize, u32), NoMemory> {
    let mut clauses = Vec::new(alloc);
    let mut left = 0u32;
    for set in (0..sets).rev() {
        if is_candidate(shapes, clauses.as_slice(), set)
            && is_left(alloc, rules, &mut clauses, set)?
        {
            left = left.saturating_add(1);
        }
    }
    Ok((clauses.len(), left))
}

/// How many loops, how many sets of their atoms, and how many nogoods are enough.
type Loops = (u32, u32, usize);

const COUNTS: [Loops; 4] = [(1, 4, 2), (2, 16, 4), (3, 64, 6), (4, 256, 8)];

/// Whether that many nogoods leave one answer set.
fn is_enough(alloc: Global, row: &Loops) -> Result<bool, NoMemory> {
    let (count, sets, most) = *row;
    let shapes = loops(alloc, count)?;
    let rules = rules_of(alloc, shapes.as_slice())?;
    match rule_out(alloc, shapes.as_slice(), rules.as_slice(), sets) {
        Ok((nogoods, left)) => Ok(nogoods <= most && left == 1),
        Err(fault) => Err(fault),
    }
}

fn rule_out_rows(alloc: Global, rows: &[Loops]) -> Result<(), Fail> {
    for row in rows {
        expect_number(is_enough(alloc, row)?, "loops", row.0)?;
    }
    Ok(())
}

/// Each nogood denies another atom, and the empty set alone is an answer set.
#[test]
fn loops_need_a_nogood_an_atom(rt: HostRuntime) -> Result<(), Fail> {
    rule_out_rows(rt.alloc(), &COUNTS)
}
