//! Rules over the atoms a, b and c, which have the numbers 0, 1 and 2, against answers that were worked out by hand.
ghost use Rattle.std.specs.Prelude.{◌≡◌};
ghost use Rattle.std.specs.List.{list_all};
ghost use Rattle.asp_reduct.specs.Bounds.{are_below, is_rule_below};

use crate::rows::expect;
use crate::texts::game;
use asp_bits::Bits;
use asp_defs::{Game, GroundRule, NoMemory};
use asp_reduct::{body_true, reduct, satisfies};
use std::alloc::Global;
use std::test::Fail;

/// The interpretation in which a and b are true and c is not.
fn interpretation(alloc: Global) -> Result<Bits, NoMemory> {
    let mut set = Bits::new(alloc, 3)?;
    set.set(0, true);
    set.set(1, true);
    Ok(set)
}

/// The rules of the second level.
fn second_level(game: &Game) -> &[GroundRule] {
    match game.rules.as_slice().get(1) {
        Some(rules) => rules.as_slice(),
        None => &[],
    }
}

fn are_in(atoms: &[u32], count: u32) -> bool
    ensures { result ≡ are_below count atoms.now }
{
    atoms.iter().all(|atom| *atom < count)
}

/// Whether the rule's atoms are places of an interpretation of so many.
fn is_in(rule: &GroundRule, count: u32) -> bool
    ensures { result ≡ is_rule_below count rule.now }
{
    are_in(rule.head.as_slice(), count)
        && are_in(rule.pos.as_slice(), count)
        && are_in(rule.neg.as_slice(), count)
}

/// Texts whose second level has one rule, whether its body is true, and whether it is satisfied.
const JUDGED: [(&str, bool, bool); 10] = [
    ("%@exists {a; b; c}. %@exists :- .", true, false),
    ("%@exists {a; b; c}. %@exists a.", true, true),
    ("%@exists {a; b; c}. %@exists c.", true, false),
    ("%@exists {a; b; c}. %@exists c | b :- a.", true, true),
    ("%@exists {a; b; c}. %@exists c :- a, c.", false, true),
    ("%@exists {a; b; c}. %@exists :- a, not c.", true, false),
    ("%@exists {a; b; c}. %@exists :- a, not b.", false, true),
    (
        "%@exists {a; b; c}. %@exists c :- a, b, not c.",
        true,
        false,
    ),
    ("%@exists {a; b; c}. %@exists {c} :- a.", true, true),
    ("%@exists {a; b; c}. %@exists {c} :- c, not a.", false, true),
];

/// Whether the one rule of a game's second level is judged so.
fn is_judged(game: &Game, set: &Bits, truth: bool, satisfied: bool) -> bool {
    match second_level(game) {
        [rule] if is_in(rule, set.len()) => {
            body_true(rule, set) == truth && satisfies(rule, set) == satisfied
        }
        _ => false,
    }
}

fn is_judged_text(alloc: Global, text: &str, set: &Bits, truth: bool, satisfied: bool) -> bool {
    match game(alloc, text) {
        Some(game) => is_judged(&game, set, truth, satisfied),
        None => false,
    }
}

fn judge_rows(alloc: Global, set: &Bits, rows: &[(&str, bool, bool)]) -> Result<(), Fail> {
    for (text, truth, satisfied) in rows {
        expect(is_judged_text(alloc, text, set, *truth, *satisfied), text)?;
    }
    Ok(())
}

#[test]
fn judges_rules(rt: HostRuntime) -> Result<(), Fail> {
    let set = interpretation(rt.alloc())?;
    judge_rows(rt.alloc(), &set, &JUDGED)
}

fn are_all_in(rules: &[GroundRule], count: u32) -> bool
    ensures { result ≡ list_all (is_rule_below count) rules.now }
{
    rules.iter().all(|rule| is_in(rule, count))
}

/// A program, and its second level's reduct: the rules, their heads and their bodies.
const TO_REDUCE: &str = "%@exists {a; b; c}. %@exists
    a :- not c. b :- not a. {b} :- a, not c. {c}. :- c, not b. :- c.";

const REDUCED: [(&str, &[u32], &[u32]); 3] = [
    ("a.", &[0], &[]),
    ("b :- a.", &[1], &[0]),
    (":- c.", &[], &[2]),
];

/// Whether the rule is no choice, has no negative body, and has this head and body.
fn is_part(part: Option<&GroundRule>, head: &[u32], pos: &[u32]) -> bool {
    match part {
        Some(rule) => {
            !rule.choice
                && rule.neg.is_empty()
                && rule.head.as_slice() == head
                && rule.pos.as_slice() == pos
        }
        None => false,
    }
}

fn part_rows(parts: &[GroundRule], rows: &[(&str, &[u32], &[u32])]) -> Result<(), Fail> {
    for (place, (row, head, pos)) in rows.iter().enumerate() {
        expect(is_part(parts.get(place), head, pos), row)?;
    }
    Ok(())
}

/// Reduces the second level's rules, and compares what stays with the rows.
fn reduce(alloc: Global, rules: &[GroundRule], set: &Bits) -> Result<(), Fail> {
    if rules.len() != 6 || !are_all_in(rules, set.len()) {
        return Err(Fail::new(TO_REDUCE));
    }
    let parts = reduct(alloc, rules, set)?;
    if parts.len() != 3 {
        return Err(Fail::new("three rules stay"));
    }
    part_rows(parts.as_slice(), &REDUCED)
}

#[test]
fn keeps_what_the_set_allows(rt: HostRuntime) -> Result<(), Fail> {
    let set = interpretation(rt.alloc())?;
    match game(rt.alloc(), TO_REDUCE) {
        Some(game) => reduce(rt.alloc(), second_level(&game), &set),
        None => Err(Fail::new(TO_REDUCE)),
    }
}
