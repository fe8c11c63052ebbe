//! What the moves of a level are, by the definitions, over masks of atoms.

use asked_moves::questions::has;
use asp_defs::{Bound, Counted, Game, GroundRule};

/// The mask of some atoms.
pub fn mask(atoms: &[u32]) -> u32 {
    let mut mask = 0;
    for atom in atoms {
        if *atom < 32 {
            mask |= 1 << *atom;
        }
    }
    mask
}

fn are_true(pos: &[u32], neg: &[u32], set: u32) -> bool {
    pos.iter().all(|atom| has(set, *atom)) && !neg.iter().any(|atom| has(set, *atom))
}

fn satisfies(rule: &GroundRule, set: u32) -> bool {
    rule.choice
        || !are_true(rule.pos.as_slice(), rule.neg.as_slice(), set)
        || rule.head.as_slice().iter().any(|atom| has(set, *atom))
}

/// Whether the smaller set satisfies what the reduct by `set` makes of the rule.
fn keeps(rule: &GroundRule, set: u32, smaller: u32) -> bool {
    let heads = mask(rule.head.as_slice());
    mask(rule.neg.as_slice()) & set != 0
        || (rule.choice && heads & set == 0)
        || mask(rule.pos.as_slice()) & !smaller != 0
        || heads & smaller != 0
}

fn counts(term: &Counted, set: u32) -> bool {
    has(set, term.atom) && are_true(term.pos.as_slice(), term.neg.as_slice(), set)
}

/// How many atoms the bound counts.
fn count(bound: &Bound, set: u32) -> i64 {
    let mut counted = 0u32;
    for term in bound.counted.as_slice() {
        if counts(term, set) && term.atom < 32 {
            counted |= 1 << term.atom;
        }
    }
    i64::from(counted.count_ones())
}

fn meets(bound: &Bound, set: u32) -> bool {
    let counted = count(bound, set);
    let least = bound.low.is_none_or(|low| i64::from(low) <= counted);
    let most = bound.high.is_none_or(|high| counted <= i64::from(high));
    !are_true(bound.pos.as_slice(), bound.neg.as_slice(), set) || (least && most)
}

/// Whether the set is a move of the level with this many before it, after the part of the base below, `lower`, that it has.
pub fn is_move(game: &Game, level: usize, lower: u32, set: u32) -> bool {
    let Some(rules) = game.rules.as_slice().get(level) else {
        return false;
    };
    let Some(bounds) = game.bounds.as_slice().get(level) else {
        return false;
    };
    let rules = rules.as_slice();
    let bounds = bounds.as_slice();
    if !rules.iter().all(|rule| satisfies(rule, set))
        || !bounds.iter().all(|bound| meets(bound, set))
    {
        return false;
    }
    let own = set & !lower;
    for part in 0..own {
        let smaller = part & own | set & lower;
        if smaller != set && rules.iter().all(|rule| keeps(rule, set, smaller)) {
            return false;
        }
    }
    true
}
