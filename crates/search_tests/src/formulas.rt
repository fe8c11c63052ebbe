//! Answers of searches compared with all assignments.

ghost use Rattle.std.specs.Prelude.{◌<◌};

use crate::numbers::draw;
use crate::probe::{Answer, Probe, add_loose, ask, ask_in_order, bit, probe_of};
use crate::rows::expect_number;
use asp_search::NoMemory;
use std::alloc::Global;
use std::test::Fail;

/// Whether the answer is right for clauses and assumptions over the first eight atoms, all of them bits of literals.
pub fn is_right(answer: Answer, clauses: &[u32], assumed: u32) -> bool {
    match answer {
        Answer::Found(truths) => assumed & truths == assumed && satisfies(truths, clauses),
        Answer::Core(core, _) => core & assumed == core && is_refuted(core, clauses),
        Answer::Spent | Answer::NoMemory => false,
    }
}

/// Whether each clause has one of the literals.
fn satisfies(truths: u32, clauses: &[u32]) -> bool {
    clauses.iter().all(|clause| *clause & truths != 0)
}

/// Whether no assignment with the core's literals satisfies the clauses.
fn is_refuted(core: u32, clauses: &[u32]) -> bool {
    for atoms in 0..256u32 {
        let truths = truths_of(atoms);
        if core & truths == core && satisfies(truths, clauses) {
            return false;
        }
    }
    true
}

/// The literals of the first eight atoms that are true where just the atoms of these bits are.
fn truths_of(atoms: u32) -> u32 {
    let mut truths = 0u32;
    for atom in 0..8u32 {
        truths |= bit(2 * atom + (atoms >> atom) % 2);
    }
    truths
}

/// What a search in order over three atoms is to answer: the first assignment, in the order of the atoms, with false before
/// true.
fn first_of(clauses: &[u32]) -> Answer {
    for number in 0..8u32 {
        // The first atom is the highest bit.
        let atoms = number / 4 % 2 + number / 2 % 2 * 2 + number % 2 * 4;
        let truths = truths_of(atoms) % 64;
        if satisfies(truths, clauses) {
            return Answer::Found(truths);
        }
    }
    Answer::Core(0, 0)
}

/// Whether the four digits in base 28 don't descend.
fn is_ascending(number: u32) -> bool {
    let first = number % 28;
    let second = number / 28 % 28;
    let third = number / 784 % 28;
    let fourth = number / 21_952 % 28;
    first <= second && second <= third && third <= fourth
}

/// The digit of a number in base 3 that counts so many.
fn digit(number: u32, unit: u32) -> u32
    requires { 0 < unit }
    ensures { result < 3 }
{
    number / unit % 3
}

/// A clause over three atoms: for each a digit in base 3, which is 0 for none, 1 for its negation, and 2 for itself.
fn clause_of(number: u32) -> u32 {
    digit(number, 1) + digit(number, 3) * 4 + digit(number, 9) * 16
}

/// A clause for each of the four digits in base 28 that is below 27.
fn formula_of(alloc: Global, number: u32) -> Result<Vec<u32>, NoMemory> {
    let mut clauses = Vec::new(alloc);
    let mut rest = number;
    for _place in 0..4u32 {
        if rest % 28 < 27 {
            clauses.push(clause_of(rest % 28))?;
        }
        rest /= 28;
    }
    Ok(clauses)
}

/// Whether a search over three atoms is right without order and in order.
fn is_right_twice(alloc: Global, probe: &mut Probe, clauses: &[u32]) -> Result<bool, Fail> {
    let answer = ask(alloc, probe, 0)?;
    let first = ask_in_order(alloc, probe)?;
    Ok(is_right(answer, clauses, 0) && first == first_of(clauses))
}

/// Whether a search over three atoms, which places fewer than 3^3 literals, is right.
fn try_clauses(alloc: Global, clauses: &[u32]) -> Result<bool, Fail> {
    let mut probe = probe_of(alloc, 3, 27, clauses)?;
    is_right_twice(alloc, &mut probe, clauses)
}

/// Whether a search is right for the formula of a number.
fn try_formula(alloc: Global, number: u32) -> Result<bool, Fail> {
    let clauses = formula_of(alloc, number)?;
    try_clauses(alloc, clauses.as_slice())
}

// All formulas of up to three atoms and four clauses: a clause is one of the 27 sets of literals without both of an
// atom, the empty set among them, and a formula is up to four clauses, whatever their order; a clause may stand in it
// twice.
#[test]
fn agrees_on_all_small_formulas(rt: HostRuntime) -> Result<(), Fail> {
    let mut tried = 0u32;
    for number in 0..614_656u32 {
        if is_ascending(number) {
            expect_number(try_formula(rt.alloc(), number)?, number)?;
            tried = tried.saturating_add(1);
        }
    }
    expect_number(tried == 31_465, tried)
}

/// Clauses of three literals of the first eight atoms.
fn draw_formula(alloc: Global, seed: &mut u32, clauses: u32) -> Result<Vec<u32>, NoMemory> {
    let mut formula = Vec::new(alloc);
    for _clause in 0..clauses {
        let clause = bit(draw(seed) % 16) | bit(draw(seed) % 16) | bit(draw(seed) % 16);
        formula.push(clause)?;
    }
    Ok(formula)
}

/// Literals of about half of the first eight atoms.
fn draw_assumptions(seed: &mut u32) -> u32 {
    let mut assumed = 0u32;
    for atom in 0..8u32 {
        let choice = draw(seed) % 4;
        if choice < 2 {
            assumed |= bit(2 * atom + choice);
        }
    }
    assumed
}

/// Whether a search is right under assumptions and then without; `forgets` has learned clauses dropped at every conflict
/// from the start, else from the second answer on.
fn is_right_freed(
    alloc: Global,
    probe: &mut Probe,
    clauses: &[u32],
    assumed: u32,
    forgets: bool,
) -> Result<bool, Fail> {
    if forgets {
        probe.forget();
    }
    let under = ask(alloc, probe, assumed)?;
    probe.forget();
    let free = ask(alloc, probe, 0)?;
    Ok(is_right(under, clauses, assumed) && is_right(free, clauses, 0))
}

/// Whether a search over eight atoms, which places fewer than 3^8 literals, is right.
fn try_assumed(alloc: Global, clauses: &[u32], assumed: u32, forgets: bool) -> Result<bool, Fail> {
    let mut probe = probe_of(alloc, 8, 6561, clauses)?;
    is_right_freed(alloc, &mut probe, clauses, assumed, forgets)
}

/// Whether a search is right for a formula and assumptions that are drawn.
fn try_random(alloc: Global, seed: &mut u32, clauses: u32, forgets: bool) -> Result<bool, Fail> {
    let formula = draw_formula(alloc, seed, clauses)?;
    let assumed = draw_assumptions(seed);
    try_assumed(alloc, formula.as_slice(), assumed, forgets)
}

#[test]
fn agrees_on_random_formulas(rt: HostRuntime) -> Result<(), Fail> {
    let mut seed = 1;
    for round in 0..500u32 {
        let forgets = round / 50 % 2 == 1;
        let agrees = try_random(rt.alloc(), &mut seed, round % 50, forgets)?;
        expect_number(agrees, round)?;
    }
    Ok(())
}

/// The clauses of both lists.
fn joined(alloc: Global, first: &[u32], second: &[u32]) -> Result<Vec<u32>, NoMemory> {
    let mut both = Vec::from_slice(alloc, first)?;
    for clause in second {
        both.push(*clause)?;
    }
    Ok(both)
}

/// Whether a search that forgets is right while loose clauses hold: `all` are the firm and the loose ones.
fn is_right_loosely(
    alloc: Global,
    probe: &mut Probe,
    loose: &[u32],
    all: &[u32],
) -> Result<bool, Fail> {
    probe.forget();
    add_loose(alloc, probe, loose)?;
    Ok(is_right(probe.next(alloc), all, 0))
}

/// Whether a search over eight atoms is right while loose clauses hold, and afterwards.
fn try_loose(alloc: Global, firm: &[u32], loose: &[u32]) -> Result<bool, Fail> {
    let mut probe = probe_of(alloc, 8, 6561, firm)?;
    let all = joined(alloc, firm, loose)?;
    let both = is_right_loosely(alloc, &mut probe, loose, all.as_slice())?;
    let alone = ask(alloc, &mut probe, 0)?;
    Ok(both && is_right(alone, firm, 0))
}

/// Whether a search is right for firm and loose clauses that are drawn.
fn try_random_loose(alloc: Global, seed: &mut u32, clauses: u32) -> Result<bool, Fail> {
    let firm = draw_formula(alloc, seed, clauses)?;
    let loose = draw_formula(alloc, seed, 10)?;
    try_loose(alloc, firm.as_slice(), loose.as_slice())
}

#[test]
fn agrees_while_loose_clauses_hold(rt: HostRuntime) -> Result<(), Fail> {
    let mut seed = 2;
    for round in 0..500u32 {
        expect_number(try_random_loose(rt.alloc(), &mut seed, round % 40)?, round)?;
    }
    Ok(())
}
