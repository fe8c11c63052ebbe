//! Trails, books and propagation on cases computed by hand.

ghost use Rattle.std.specs.Prelude.{◌≡◌, ℕ, ◌+◌, ◌*◌, ◌<◌, ◌≤◌, [], ◌∷◌, slice_index, IfOk, length, vec_len};
ghost use Rattle.asp_clauses.specs.Book.{Goes, IsClause};

use crate::probe::bit;
use crate::rows::expect;
use asp_clauses::{Book, NoMemory, Spent, Trail, propagate};
use std::alloc::Global;
use std::test::Fail;

/// What is done with a book and a trail over four atoms, and what is answered.
enum Act {
    /// Decides a literal; refused where its atom has a value or the budget is spent.
    Decide(u32, bool),
    /// Adds the clause that excludes atoms 3 and 0 together, which gets this number.
    Exclude(u32),
    /// The same, until the book settles.
    ExcludeLoosely(u32),
    /// The same, as a learned clause of three decision levels.
    Learn(u32),
    /// Settles over the empty trail, and has so many clauses then.
    Settle(u32),
    /// Removes all learned clauses that are no reason, and has so many clauses then.
    Forget(u32),
    Propagate(Result<Option<u32>, Spent>),
    Reset,
}

/// A name, what is done, and then the true literals as bits, the number of decisions and the count of placements.
type Line = (&'static str, Act, u32, u32, u64);

/// Over a book without clauses and a budget of two placements.
const DECISIONS: [Line; 5] = [
    ("decides atom 0", Act::Decide(1, true), 0b10, 1, 1),
    ("atom 0 is assigned", Act::Decide(0, false), 0b10, 1, 1),
    ("decides atom 2", Act::Decide(4, true), 0b1_0010, 2, 2),
    ("is spent", Act::Decide(2, false), 0b1_0010, 2, 2),
    ("goes back to the start", Act::Reset, 0, 0, 0),
];

/// Over the chain and a budget of nine placements.
const ALONG_A_CHAIN: [Line; 9] = [
    ("implies nothing", Act::Propagate(Ok(None)), 0, 0, 0),
    ("decides atom 0", Act::Decide(1, true), 0b10, 1, 1),
    (
        "implies each next atom",
        Act::Propagate(Ok(None)),
        0b1010_1010,
        1,
        4,
    ),
    ("excludes both ends", Act::Exclude(3), 0b1010_1010, 1, 4),
    (
        "has both ends",
        Act::Propagate(Ok(Some(3))),
        0b1010_1010,
        1,
        4,
    ),
    ("goes back to the start", Act::Reset, 0, 0, 0),
    ("implies nothing again", Act::Propagate(Ok(None)), 0, 0, 0),
    ("decides atom 3", Act::Decide(7, true), 0b1000_0000, 1, 1),
    (
        "implies that atom 0 is false",
        Act::Propagate(Ok(None)),
        0b1000_0001,
        1,
        2,
    ),
];

/// Over the chain and a budget of three placements.
const UNTIL_SPENT: [Line; 5] = [
    ("decides atom 0", Act::Decide(1, true), 0b10, 1, 1),
    (
        "is spent before atom 3",
        Act::Propagate(Err(Spent)),
        0b10_1010,
        1,
        3,
    ),
    ("goes back to the start", Act::Reset, 0, 0, 0),
    ("decides atom 1", Act::Decide(3, true), 0b1000, 1, 1),
    (
        "needs all of its budget",
        Act::Propagate(Ok(None)),
        0b1010_1000,
        1,
        3,
    ),
];

/// Over the chain and a budget of nine placements.
const WHILE_LOOSE: [Line; 9] = [
    (
        "excludes both ends for a while",
        Act::ExcludeLoosely(3),
        0,
        0,
        0,
    ),
    ("decides atom 3", Act::Decide(7, true), 0b1000_0000, 1, 1),
    (
        "implies that atom 0 is false",
        Act::Propagate(Ok(None)),
        0b1000_0001,
        1,
        2,
    ),
    ("goes back to the start", Act::Reset, 0, 0, 0),
    ("drops the loose clause", Act::Settle(3), 0, 0, 0),
    (
        "decides atom 3 again",
        Act::Decide(7, true),
        0b1000_0000,
        1,
        1,
    ),
    (
        "implies nothing",
        Act::Propagate(Ok(None)),
        0b1000_0000,
        1,
        1,
    ),
    ("decides atom 0", Act::Decide(1, true), 0b1000_0010, 2, 2),
    (
        "implies the atoms between",
        Act::Propagate(Ok(None)),
        0b1010_1010,
        2,
        4,
    ),
];

/// Over the chain and a budget of nine placements.
const WHILE_LEARNED: [Line; 9] = [
    (
        "learns that both ends exclude each other",
        Act::Learn(3),
        0,
        0,
        0,
    ),
    ("decides atom 3", Act::Decide(7, true), 0b1000_0000, 1, 1),
    (
        "implies that atom 0 is false",
        Act::Propagate(Ok(None)),
        0b1000_0001,
        1,
        2,
    ),
    ("keeps the reason", Act::Forget(4), 0b1000_0001, 1, 2),
    ("goes back to the start", Act::Reset, 0, 0, 0),
    ("keeps what is firm", Act::Settle(4), 0, 0, 0),
    ("drops what was learned", Act::Forget(3), 0, 0, 0),
    (
        "decides atom 3 again",
        Act::Decide(7, true),
        0b1000_0000,
        1,
        1,
    ),
    (
        "implies nothing",
        Act::Propagate(Ok(None)),
        0b1000_0000,
        1,
        1,
    ),
];

/// The literals of four atoms that have this value, as bits.
fn valued(trail: &Trail, value: bool) -> u32
    requires { 4 ≤ trail.now.atoms }
{
    let mut bits = 0u32;
    for literal in 0..8 {
        if trail.value(literal) == Some(value) {
            bits |= bit(literal);
        }
    }
    bits
}

/// The negations of literals.
fn negations(literals: u32) -> u32 {
    (literals & 0x5555) << 1 | (literals & 0xaaaa) >> 1
}

/// Whether just these literals of four atoms are true and their negations false, with so many decisions and placements.
fn has(trail: &Trail, literals: u32, decisions: u32, count: u64) -> bool
    requires { 4 ≤ trail.now.atoms }
{
    valued(trail, true) == literals
        && valued(trail, false) == negations(literals)
        && trail.len() == literals.count_ones()
        && trail.decisions() == decisions
        && trail.count() == count
}

/// Decides a literal where its atom has no value and the budget lasts.
fn decides(book: &Book, trail: &mut Trail, literal: u32) -> bool
    requires goes { Goes book.now trail.old }
    requires four { book.now.atoms ≡ 4 }
    ensures { Goes book.now trail.new }
{
    let _ = book;
    if literal >= 8 {
        return false;
    }
    trail.value(literal).is_none() && trail.decide(literal).is_ok()
}

/// Settles if no literal is placed, and whether there are so many clauses then.
fn settles(book: &mut Book, trail: &Trail, count: u32) -> bool
    requires goes { Goes book.old trail.now }
    requires four { book.old.atoms ≡ 4 }
    ensures goes { Goes book.new trail.now }
    ensures four { book.new.atoms ≡ 4 }
{
    if !trail.is_empty() {
        return false;
    }
    book.settle(trail);
    book.len() == count
}

/// Removes the learned clauses that are no reason, and whether there are so many clauses then.
fn forgets(alloc: Global, book: &mut Book, trail: &mut Trail, count: u32) -> bool
    requires goes { Goes book.old trail.old }
    requires four { book.old.atoms ≡ 4 }
    ensures goes { Goes book.new trail.new }
    ensures four { book.new.atoms ≡ 4 }
{
    let mut stays = match none_stays(alloc, book.len()) {
        Ok(stays) => stays,
        Err(_) => return false,
    };
    book.remove(trail, stays.as_mut_slice());
    book.len() == count
}

/// A mark for each of so many clauses, which says that it isn't to stay.
fn none_stays(alloc: Global, clauses: u32) -> Result<Vec<bool>, NoMemory>
    ensures { IfOk result (λ stays. length stays.items ≡ clauses) }
{
    Ok(vec![in alloc; false; clauses as usize]?)
}

/// Whether what is done is answered as it should be.
fn is_done(alloc: Global, book: &mut Book, trail: &mut Trail, act: &Act) -> bool
    requires goes { Goes book.old trail.old }
    requires four { book.old.atoms ≡ 4 }
    ensures goes { Goes book.new trail.new }
    ensures four { book.new.atoms ≡ 4 }
{
    match act {
        Act::Decide(literal, decided) => decides(book, trail, *literal) == *decided,
        Act::Exclude(number) => book.add(alloc, &[6, 0]) == Ok(*number),
        Act::ExcludeLoosely(number) => book.add_loose(alloc, &[6, 0]) == Ok(*number),
        Act::Learn(number) => book.add_learned(alloc, &[6, 0], false, 3) == Ok(*number),
        Act::Settle(count) => settles(book, trail, *count),
        Act::Forget(count) => forgets(alloc, book, trail, *count),
        Act::Propagate(answer) => propagate(book, trail) == *answer,
        Act::Reset => {
            trail.reset();
            true
        }
    }
}

/// Does what stands in each line, and fails at the first that isn't as it should be.
fn follow(alloc: Global, book: &mut Book, trail: &mut Trail, lines: &[Line]) -> Result<(), Fail>
    requires goes { Goes book.old trail.old }
    requires four { book.old.atoms ≡ 4 }
{
    for (name, act, literals, decisions, count) in lines {
        let is_done = is_done(alloc, book, trail, act);
        expect(is_done && has(trail, *literals, *decisions, *count), name)?;
    }
    Ok(())
}

/// Follows the lines over a book and a new trail.
fn begin(alloc: Global, book: &mut Book, budget: u64, lines: &[Line]) -> Result<(), Fail>
    requires { book.old.atoms ≡ 4 }
{
    let mut trail = Trail::new(alloc, 4, budget)?;
    follow(alloc, book, &mut trail, lines)
}

/// Adds that atom 0 implies 1, that 2, and that 3.
fn add_chain(alloc: Global, book: &mut Book) -> Result<(), NoMemory>
    requires { book.old.atoms ≡ 4 }
    ensures { book.new.atoms ≡ 4 }
{
    let _ = book.add(alloc, &[0, 3])?;
    let _ = book.add(alloc, &[2, 5])?;
    let _ = book.add(alloc, &[4, 7])?;
    Ok(())
}

/// Follows the lines over a book with the chain.
fn begin_chain(alloc: Global, budget: u64, lines: &[Line]) -> Result<(), Fail> {
    let mut book = Book::new(alloc, 4)?;
    if add_chain(alloc, &mut book).is_err() {
        return Err(Fail::new("no memory for the chain"));
    }
    begin(alloc, &mut book, budget, lines)
}

#[test]
fn decides_until_spent(rt: HostRuntime) -> Result<(), Fail> {
    let mut book = Book::new(rt.alloc(), 4)?;
    begin(rt.alloc(), &mut book, 2, &DECISIONS)
}

#[test]
fn propagates_along_a_chain(rt: HostRuntime) -> Result<(), Fail> {
    begin_chain(rt.alloc(), 9, &ALONG_A_CHAIN)
}

#[test]
fn propagates_until_spent(rt: HostRuntime) -> Result<(), Fail> {
    begin_chain(rt.alloc(), 3, &UNTIL_SPENT)
}

#[test]
fn drops_loose_clauses(rt: HostRuntime) -> Result<(), Fail> {
    begin_chain(rt.alloc(), 9, &WHILE_LOOSE)
}

#[test]
fn drops_learned_clauses(rt: HostRuntime) -> Result<(), Fail> {
    begin_chain(rt.alloc(), 9, &WHILE_LEARNED)
}

/// Whether the trail has the negation of atom 0 alone, not as a decision, after so many placements.
fn has_negation_alone(trail: &Trail, count: u64) -> bool
    requires { 2 ≤ trail.now.atoms }
{
    trail.value(0) == Some(true)
        && trail.value(1) == Some(false)
        && trail.value(2).is_none()
        && trail.len() == 1
        && trail.decisions() == 0
        && trail.count() == count
}

/// Decides atom 0, goes back on it and places its negation, and whether nothing else follows.
fn goes_back(book: &mut Book, trail: &mut Trail) -> bool
    requires goes { Goes book.old trail.old }
    requires atoms { book.old.atoms ≡ 2 }
    requires clauses { book.old.clauses ≡ (0 ∷ []) ∷ [] }
    requires empty { trail.old.steps ≡ [] }
    requires budget { trail.old.count < trail.old.budget }
{
    if trail.decide(1).is_err() {
        return false;
    }
    let jumped = trail.jump(book, 0, 0, 0);
    jumped.is_ok() && has_negation_alone(trail, 2) && propagate(book, trail) == Ok(None)
}

#[test]
fn goes_back_to_a_decision(rt: HostRuntime) -> Result<(), Fail> {
    let mut book = Book::new(rt.alloc(), 2)?;
    let clause = book.add(rt.alloc(), &[0])?;
    let mut trail = Trail::new(rt.alloc(), 2, 9)?;
    let went = goes_back(&mut book, &mut trail);
    expect(clause == 0 && went, "goes back to the start")
}

/// Places the negation of atom 0.
fn implies(book: &Book, trail: &mut Trail) -> bool
    requires goes { Goes book.now trail.old }
    requires atoms { book.now.atoms ≡ 2 }
    requires clauses { book.now.clauses ≡ (0 ∷ []) ∷ [] }
    requires empty { trail.old.steps ≡ [] }
{
    let implied = trail.imply(book, 0, 0);
    implied.is_ok() && has_negation_alone(trail, 1)
}

#[test]
fn places_an_implied_literal(rt: HostRuntime) -> Result<(), Fail> {
    let mut book = Book::new(rt.alloc(), 2)?;
    let clause = book.add(rt.alloc(), &[0])?;
    let mut trail = Trail::new(rt.alloc(), 2, 9)?;
    let implied = implies(&book, &mut trail);
    expect(clause == 0 && implied, "has the negation alone")
}

/// The literals of so many atoms, in order.
fn atoms_up_to(alloc: Global, atoms: u32) -> Result<Vec<u32>, NoMemory>
    requires { atoms ≤ 262144 }
    ensures len { IfOk result (λ v. vec_len v ≡ atoms) }
    ensures each { IfOk result (λ v. (k : ℕ) → k < atoms → slice_index v.items k ≡ 2 * k + 1) }
{
    let mut lits = Vec::new(alloc);
    for atom in 0..atoms {
        lits.push(2 * atom + 1)?;
    }
    Ok(lits)
}

/// Whether the book's first clause is the longest one, up to the order of its literals.
fn has_longest(book: &Book) -> bool
    requires { 0 < length book.now.clauses }
{
    let kept = book.lits(0);
    kept.len() == 262_144 && kept.last() == Some(&524_287)
}

/// Whether the longest clause is the first and the empty clause the second of a book.
fn adds_both(alloc: Global, book: &mut Book, lits: &[u32]) -> bool
    requires longest { IsClause book.old.atoms lits.now }
    ensures { book.new.atoms ≡ book.old.atoms }
{
    if book.add(alloc, lits) != Ok(0) {
        return false;
    }
    if book.add(alloc, &[]) != Ok(1) {
        return false;
    }
    book.len() == 2 && has_longest(book)
}

/// Whether a book over as many atoms as there can be has the second clause as one that is false from the start.
fn has_empty(alloc: Global, book: &mut Book) -> bool
    requires { book.old.atoms ≡ 262144 }
{
    match Trail::new(alloc, 262_144, 0) {
        Ok(mut trail) => propagate(book, &mut trail) == Ok(Some(1)),
        Err(_) => false,
    }
}

#[test]
fn adds_the_longest_clause(rt: HostRuntime) -> Result<(), Fail> {
    let lits = atoms_up_to(rt.alloc(), 262_144)?;
    let mut book = Book::new(rt.alloc(), 262_144)?;
    let are_added = adds_both(rt.alloc(), &mut book, lits.as_slice());
    expect(
        are_added && has_empty(rt.alloc(), &mut book),
        "keeps all literals",
    )
}
