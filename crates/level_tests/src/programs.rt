//! Random programs over four atoms, each set of atoms asked about with one set of free ones, against the definitions taken
//! over bits.

use crate::minimality::{Answer, ask, ask_nogood, atoms_of};
use crate::texts::expect_number;
use asp_defs::{GroundRule, NoMemory};
use search_tests::numbers::draw;
use std::alloc::Global;
use std::test::Fail;

/// A rule over the atoms below 8, each list of atoms as bits.
#[derive(Clone, Copy)]
pub struct Shape {
    pub choice: bool,
    pub head: u32,
    pub pos: u32,
    pub neg: u32,
}

fn rule_of(alloc: Global, shape: Shape) -> Result<GroundRule, NoMemory> {
    let head = atoms_of(alloc, shape.head)?;
    let pos = atoms_of(alloc, shape.pos)?;
    let neg = atoms_of(alloc, shape.neg)?;
    Ok(GroundRule {
        choice: shape.choice,
        head,
        pos,
        neg,
    })
}

/// The rules of these shapes, in their order.
pub fn rules_of(alloc: Global, shapes: &[Shape]) -> Result<Vec<GroundRule>, NoMemory> {
    let mut rules = Vec::new(alloc);
    for shape in shapes {
        rules.push(rule_of(alloc, *shape)?)?;
    }
    Ok(rules)
}

/// How many sets of atoms there are.
const SETS: u32 = 16;

/// Whether the body is true in a set.
fn body_true(shape: Shape, set: u32) -> bool {
    shape.pos & !set == 0 && shape.neg & set == 0
}

/// Whether the set satisfies the rules.
pub fn is_model(shapes: &[Shape], set: u32) -> bool {
    shapes.iter().all(|shape| shape.choice || !body_true(*shape, set) || shape.head & set != 0)
}

/// Whether a smaller set satisfies what the reduct by `set` makes of the rule.
fn keeps(shape: Shape, set: u32, smaller: u32) -> bool {
    let dropped = shape.neg & set != 0 || (shape.choice && shape.head & set == 0);
    dropped || shape.pos & !smaller != 0 || shape.head & smaller != 0
}

/// Whether a set is an answer set of the rules with a free choice on each free atom.
fn is_answer_set(shapes: &[Shape], free: u32, set: u32) -> bool {
    if !is_model(shapes, set) {
        return false;
    }
    for smaller in 0..SETS {
        let is_smaller = smaller & !set == 0 && smaller != set && (set & free) & !smaller == 0;
        if is_smaller && shapes.iter().all(|shape| keeps(*shape, set, smaller)) {
            return false;
        }
    }
    true
}

/// Whether the rule supports `part` in a set from outside.
fn supports(shape: Shape, set: u32, part: u32) -> bool {
    shape.head & part != 0
        && body_true(shape, set)
        && shape.pos & part == 0
        && shape.head & set & !part == 0
}

/// Whether `part` shows that the set is no answer set.
fn refutes(shapes: &[Shape], free: u32, set: u32, part: u32) -> bool {
    part != 0
        && part & !set == 0
        && part & free == 0
        && shapes.iter().all(|shape| !supports(*shape, set, part))
}

/// Whether a literal of the clause is true in a set: bit `2 * atom + 1` stands for an atom, bit `2 * atom` for its negation.
pub fn is_true(clause: u32, set: u32) -> bool {
    for atom in 0..8u32 {
        let literal = 2 * atom + u32::from((set >> atom) % 2 == 1);
        if (clause >> literal) % 2 == 1 {
            return true;
        }
    }
    false
}

/// Whether the clause is false in the set and true in every answer set, whatever atoms outside `part` are free.
fn is_nogood(shapes: &[Shape], set: u32, part: u32, clause: u32) -> bool {
    if is_true(clause, set) {
        return false;
    }
    for free in 0..SETS {
        for other in 0..SETS {
            if free & part == 0 && is_answer_set(shapes, free, other) && !is_true(clause, other) {
                return false;
            }
        }
    }
    true
}

/// Whether the answers for a set are right.
fn is_right(shapes: &[Shape], free: u32, set: u32, answer: Answer, clause: Option<u32>) -> bool {
    match answer {
        Answer::Yes => is_answer_set(shapes, free, set) && clause.is_none(),
        Answer::NoModel => !is_model(shapes, set) && clause.is_none(),
        Answer::Spent | Answer::Misnamed => false,
        Answer::No(part) => match clause {
            Some(clause) => {
                !is_answer_set(shapes, free, set)
                    && refutes(shapes, free, set, part)
                    && is_nogood(shapes, set, part, clause)
            }
            None => false,
        },
    }
}

/// A rule with few atoms: one that is no choice has none to four head atoms, each positive body atom is there at one in four, and each
/// negative one at one in eight.
fn draw_shape(seed: &mut u32) -> Shape {
    let choice = draw(seed) % 4 == 0;
    let head = if choice {
        1 << (draw(seed) % 4)
    } else {
        draw(seed) % SETS
    };
    let pos = draw(seed) & draw(seed) & 15;
    let neg = draw(seed) & draw(seed) & draw(seed) & 15;
    Shape {
        choice,
        head,
        pos,
        neg,
    }
}

/// Whether the answers for each set of atoms are right, with a nogood that denies one atom or the whole unfounded set.
fn are_right(
    alloc: Global,
    rules: &[GroundRule],
    shapes: &[Shape],
    free: u32,
    outer: Option<u32>,
) -> Result<bool, NoMemory> {
    for set in 0..SETS {
        let answer = ask(alloc, rules, free, set, 81)?;
        let clause = ask_nogood(alloc, rules, free, set, outer)?;
        if !is_right(shapes, free, set, answer, clause) {
            return Ok(false);
        }
    }
    Ok(true)
}

/// Whether they are for the next program of the series.
fn is_next_right(alloc: Global, seed: &mut u32, outer: Option<u32>) -> Result<bool, NoMemory> {
    let shapes = [
        draw_shape(seed),
        draw_shape(seed),
        draw_shape(seed),
        draw_shape(seed),
        draw_shape(seed),
    ];
    let free = draw(seed) & draw(seed) & 15;
    let rules = rules_of(alloc, &shapes)?;
    are_right(alloc, rules.as_slice(), &shapes, free, outer)
}

fn run_rounds(alloc: Global, rounds: u32) -> Result<(), Fail> {
    let mut seed = 7;
    for round in 0..rounds {
        let outer = if round % 2 == 0 { None } else { Some(12) };
        expect_number(is_next_right(alloc, &mut seed, outer)?, "round", round)?;
    }
    Ok(())
}

#[test]
fn agrees_on_random_programs(rt: HostRuntime) -> Result<(), Fail> {
    run_rounds(rt.alloc(), 400)
}
