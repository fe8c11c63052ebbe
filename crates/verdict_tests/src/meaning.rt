//! The values of programs, by going through all sets of atoms.

use crate::programs::{Element, Head, Level, Literals, Program, Statement};

/// As many masks as there are.
pub const SETS: u32 = 256;

fn holds(literals: Literals, set: u32) -> bool {
    literals.needed & set == literals.needed && literals.barred & set == 0
}

fn literal_atoms(literals: Literals) -> u32 {
    literals.needed | literals.barred
}

fn element_atoms(elements: &[Element]) -> u32 {
    let mut atoms = 0;
    for element in elements {
        atoms |= element.atom | literal_atoms(element.condition);
    }
    atoms
}

/// The atoms that are written in a statement.
fn atoms_of(statement: &Statement) -> u32 {
    let head = match &statement.head {
        Head::Some(atoms) => *atoms,
        Head::Free(_, elements, _) => element_atoms(elements),
    };
    head | literal_atoms(statement.body)
}

fn level_atoms(level: &Level) -> u32 {
    let mut atoms = 0;
    for statement in &level.statements {
        atoms |= atoms_of(statement);
    }
    atoms
}

/// Whether the set has no atom together with its negation.
fn is_consistent(set: u32) -> bool {
    set & (set >> 4) & 0b1111 == 0
}

/// The true atoms of a choice whose condition is true.
fn counted(elements: &[Element], set: u32) -> u32 {
    let mut atoms = 0;
    for element in elements {
        if holds(element.condition, set) {
            atoms |= element.atom & set;
        }
    }
    atoms
}

fn is_within(least: Option<u32>, count: u32, most: Option<u32>) -> bool {
    let enough = match least {
        Some(least) => least <= count,
        None => true,
    };
    let few = match most {
        Some(most) => count <= most,
        None => true,
    };
    enough && few
}

/// Whether the set does what the statement says: where the body is true, it has an atom of the head, or as many atoms of the
/// choice as the bounds allow.
fn keeps(statement: &Statement, set: u32) -> bool {
    if !holds(statement.body, set) {
        return true;
    }
    match &statement.head {
        Head::Some(atoms) => atoms & set != 0,
        Head::Free(least, elements, most) => {
            is_within(*least, counted(elements, set).count_ones(), *most)
        }
    }
}

/// Whether the literals hold in a part of the set, where what is barred is looked up in the set.
fn holds_in_part(literals: Literals, set: u32, part: u32) -> bool {
    literals.needed & part == literals.needed && literals.barred & set == 0
}

/// Whether no element gives an atom of the set that the part lacks.
fn gives_part(elements: &[Element], set: u32, part: u32) -> bool {
    for element in elements {
        if element.atom & set & !part != 0 && holds_in_part(element.condition, set, part) {
            return false;
        }
    }
    true
}

/// Whether a part of the set is all that the statement gives, where what is barred is looked up in the set.
fn gives(statement: &Statement, set: u32, part: u32) -> bool {
    if !holds_in_part(statement.body, set, part) {
        return true;
    }
    match &statement.head {
        Head::Some(atoms) => atoms & part != 0,
        Head::Free(_, elements, _) => gives_part(elements, set, part),
    }
}

fn keeps_all(statements: &[Statement], set: u32) -> bool {
    for statement in statements {
        if !keeps(statement, set) {
            return false;
        }
    }
    true
}

fn gives_all(statements: &[Statement], set: u32, part: u32) -> bool {
    for statement in statements {
        if !gives(statement, set, part) {
            return false;
        }
    }
    true
}

/// Whether a smaller part that has the same settled atoms is enough.
fn is_more_than_needed(statements: &[Statement], settled: u32, set: u32) -> bool {
    for part in 0..SETS {
        let smaller = part & set == part && part != set;
        if smaller && part & settled == set & settled && gives_all(statements, set, part) {
            return true;
        }
    }
    false
}

/// Whether the set is an answer set of the level over its base, where the settled atoms are true as in the outer set.
fn is_answer_set(level: &Level, settled: u32, outer: u32, base: u32, set: u32) -> bool {
    set & base == set
        && set & settled == outer
        && is_consistent(set)
        && keeps_all(&level.statements, set)
        && !is_more_than_needed(&level.statements, settled, set)
}

fn breaks_none(constraints: &[Literals], set: u32) -> bool {
    for body in constraints {
        if holds(*body, set) {
            return false;
        }
    }
    true
}

/// The value of a set at the first of the levels.
fn value(levels: &[Level], constraints: &[Literals], settled: u32, outer: u32) -> bool {
    let Some((level, behind)) = levels.split_first() else {
        return breaks_none(constraints, outer);
    };
    let base = settled | level_atoms(level);
    for set in 0..SETS {
        if is_answer_set(level, settled, outer, base, set)
            && value(behind, constraints, base, set) != level.universal
        {
            return !level.universal;
        }
    }
    level.universal
}

/// Whether a program is coherent.
pub fn is_coherent(program: &Program) -> bool {
    value(&program.levels, &program.constraints, 0, 0)
}

/// Whether a set is a quantified answer set: of an existential first level, with the value true behind it.
pub fn is_quantified(program: &Program, set: u32) -> bool {
    let Some((first, behind)) = program.levels.split_first() else {
        return false;
    };
    let base = level_atoms(first);
    !first.universal
        && is_answer_set(first, 0, 0, base, set)
        && value(behind, &program.constraints, base, set)
}
