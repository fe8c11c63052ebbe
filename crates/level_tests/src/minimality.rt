//! Answer sets and nogoods of worked programs, whose atoms are a, b, c and so on.

ghost use Rattle.std.specs.Prelude.{◌≡◌, true, false, length, IsTrue, IfOk};
ghost use Rattle.std.specs.List.{list_all};
ghost use Rattle.asp_bits.specs.Places.{true_places};
ghost use Rattle.asp_defs.specs.Interpretations.{holds};
ghost use Rattle.asp_defs.specs.Games.{within};
ghost use Rattle.asp_defs.specs.Lists.{is_empty};
ghost use Rattle.asp_defs.specs.Truth.{is_model as is_model_of};
ghost use Rattle.asp_defs.specs.Unfounded.{is_unfounded};
ghost use Rattle.asp_reduct.specs.Bounds.{are_below, is_rule_below};
ghost use Rattle.asp_minimal.specs.Choices.{bound_atoms};
ghost use Rattle.asp_minimal.specs.Numbers.{written};

use crate::texts::{expect_number, first_rules};
use asp_bits::Bits;
use asp_defs::{Give, GroundRule, Kind, List, Lit, NoMemory, Unknown};
use asp_minimal::{Minimality, minimal, nogood, nogood_of_atom};
use asp_reduct::satisfies;
use asp_search::Search;
use bases_tests::texts::game;
use std::alloc::Global;
use std::test::Fail;

const A: u32 = 1;

const B: u32 = 2;

const C: u32 = 4;

const D: u32 = 8;

/// What `minimal` answered.
#[derive(Clone, Copy, PartialEq, Eq)]
pub enum Answer {
    Yes,
    /// The unfounded set.
    No(u32),
    /// The search for smaller models on level 1 spent the budget.
    Spent,
    /// Another search did, or another budget.
    Misnamed,
    /// The set doesn't satisfy the rules.
    NoModel,
}

/// The bit of an atom.
pub fn bit(atom: u32) -> u32 {
    1 << (atom % 32)
}

fn bits_of(atoms: &[u32]) -> u32 {
    let mut bits = 0;
    for atom in atoms {
        bits |= bit(*atom);
    }
    bits
}

/// The atoms below 8 whose bits are set.
pub fn atoms_of(alloc: Global, bits: u32) -> Result<List<u32>, NoMemory> {
    let mut atoms = Vec::new(alloc);
    for atom in 0..8u32 {
        if bits & bit(atom) != 0 {
            atoms.push(atom)?;
        }
    }
    Ok(List::from_vec(atoms))
}

/// The interpretation over so many atoms in which just those below 8 are true whose bits are set.
fn interpretation(alloc: Global, len: u32, bits: u32) -> Result<Bits, NoMemory>
    ensures { IfOk result (λ set. length set ≡ len) }
{
    let mut set = Bits::new(alloc, len)?;
    for atom in 0..8u32 {
        if atom < set.len() {
            set.set(atom, bits & bit(atom) != 0);
        }
    }
    Ok(set)
}

fn are_in(atoms: &[u32], count: u32) -> bool
    ensures { result ≡ are_below count atoms.now }
{
    atoms.iter().all(|atom| *atom < count)
}

fn is_in(rule: &GroundRule, count: u32) -> bool
    ensures { result ≡ is_rule_below count rule.now }
{
    are_in(rule.head.as_slice(), count)
        && are_in(rule.pos.as_slice(), count)
        && are_in(rule.neg.as_slice(), count)
}

fn are_all_in(rules: &[GroundRule], count: u32) -> bool
    ensures { result ≡ list_all (is_rule_below count) rules.now }
{
    rules.iter().all(|rule| is_in(rule, count))
}

fn is_model(rules: &[GroundRule], set: &Bits) -> bool
    requires { IsTrue (list_all (is_rule_below (length set.now)) rules.now) }
    ensures { result ≡ is_model_of (true_places set.now) rules.now }
{
    for rule in rules {
        if !satisfies(rule, set) {
            return false;
        }
    }
    true
}

/// How many places are true.
fn count_true(bits: &Bits) -> u32
    ensures { result ≡ length (true_places bits.now) }
{
    let mut count = 0;
    for place in 0..bits.len() {
        if bits.get(place) {
            count += 1;
        }
    }
    count
}

/// Makes these atoms false.
fn clear(bits: &mut Bits, atoms: &[u32])
    ensures { bits.new ≡ written false bits.old atoms.now }
{
    for atom in atoms {
        if *atom < bits.len() {
            bits.set(*atom, false);
        }
    }
}

/// How many true atoms aren't free.
fn bound_count(alloc: Global, set: &Bits, free: &[u32]) -> Result<u32, NoMemory>
    ensures { IfOk result (λ count. count ≡ length (bound_atoms free.now (true_places set.now))) }
{
    let mut part = set.copy(alloc)?;
    clear(&mut part, free);
    Ok(count_true(&part))
}

/// The answer in numbers.
fn answer_of(minimality: Result<Minimality, Give>, budget: u64) -> Result<Answer, NoMemory> {
    match minimality {
        Ok(Minimality::Yes) => Ok(Answer::Yes),
        Ok(Minimality::No(atoms)) => Ok(Answer::No(bits_of(atoms.as_slice()))),
        Err(Give::Spent(unknown)) => {
            let wanted = Unknown {
                kind: Kind::Minimal,
                level: 1,
                budget,
            };
            Ok(if unknown == wanted {
                Answer::Spent
            } else {
                Answer::Misnamed
            })
        }
        Err(Give::NoMemory) => Err(NoMemory),
    }
}

/// What `minimal` answers of an interpretation.
fn ask_of(
    alloc: Global,
    rules: &[GroundRule],
    free: &[u32],
    set: &Bits,
    budget: u64,
) -> Result<Answer, NoMemory> {
    let count = bound_count(alloc, set, free)?;
    if !are_all_in(rules, set.len()) {
        return Ok(Answer::NoModel);
    }
    if !is_model(rules, set) || count > 8 {
        return Ok(Answer::NoModel);
    }
    let mut search = Search::new(alloc, count, budget)?;
    let answer = minimal(alloc, rules, free, set, 1, &mut search);
    answer_of(answer, budget)
}

/// What `minimal` answers of a set with these free atoms.
pub fn ask(
    alloc: Global,
    rules: &[GroundRule],
    free: u32,
    set: u32,
    budget: u64,
) -> Result<Answer, NoMemory> {
    let set = interpretation(alloc, 8, set)?;
    let free = atoms_of(alloc, free)?;
    ask_of(alloc, rules, free.as_slice(), &set, budget)
}

/// The literals of a clause: bit `2 * atom + 1` stands for the atom, bit `2 * atom` for its negation.
fn literals_of(clause: &[Lit]) -> u32 {
    let mut bits = 0;
    for lit in clause {
        bits |= bit(2 * (lit.atom % 16) + u32::from(lit.positive));
    }
    bits
}

/// Whether the atom is one of these.
fn is_one(atoms: &[u32], atom: u32) -> bool
    ensures { result ≡ holds atoms.now atom }
{
    atoms.iter().any(|other| *other == atom)
}

/// The first of the atoms.
fn first_of(atoms: &[u32]) -> u32 {
    match atoms.first() {
        Some(atom) => *atom,
        None => 0,
    }
}

/// The nogood of an unfounded set: of its first atom with these outer atoms, or of the whole set where there are no outer ones.
fn nogood_of(
    alloc: Global,
    rules: &[GroundRule],
    set: &Bits,
    atoms: &List<u32>,
    outer: Option<u32>,
) -> Result<List<Lit>, NoMemory>
    requires below { IsTrue (list_all (is_rule_below (length set.now)) rules.now) }
    requires some { is_empty atoms.now ≡ false }
    requires inside { within atoms.now (true_places set.now) ≡ true }
    requires unfounded { is_unfounded rules.now (true_places set.now) atoms.now ≡ true }
{
    let Some(outer) = outer else {
        return nogood(alloc, rules, set, atoms);
    };
    let atom = first_of(atoms.as_slice());
    if !is_one(atoms.as_slice(), atom) {
        return Ok(List::new(alloc));
    }
    let outer = interpretation(alloc, set.len(), outer)?;
    nogood_of_atom(alloc, rules, set, atoms, atom, &outer)
}

/// The literals of that nogood.
fn nogood_literals(
    alloc: Global,
    rules: &[GroundRule],
    set: &Bits,
    atoms: &List<u32>,
    outer: Option<u32>,
) -> Result<Option<u32>, NoMemory>
    requires below { IsTrue (list_all (is_rule_below (length set.now)) rules.now) }
    requires some { is_empty atoms.now ≡ false }
    requires inside { within atoms.now (true_places set.now) ≡ true }
    requires unfounded { is_unfounded rules.now (true_places set.now) atoms.now ≡ true }
{
    let clause = nogood_of(alloc, rules, set, atoms, outer)?;
    Ok(Some(literals_of(clause.as_slice())))
}

/// The nogood of the set that `minimal` finds in an interpretation, or none where it finds none.
fn ask_nogood_of(
    alloc: Global,
    rules: &[GroundRule],
    free: &[u32],
    set: &Bits,
    outer: Option<u32>,
) -> Result<Option<u32>, NoMemory> {
    let count = bound_count(alloc, set, free)?;
    if !are_all_in(rules, set.len()) {
        return Ok(None);
    }
    if !is_model(rules, set) || count > 8 {
        return Ok(None);
    }
    let mut search = Search::new(alloc, count, 6561)?;
    match minimal(alloc, rules, free, set, 1, &mut search) {
        Ok(Minimality::No(atoms)) => nogood_literals(alloc, rules, set, &atoms, outer),
        Err(Give::NoMemory) => Err(NoMemory),
        Ok(Minimality::Yes) | Err(Give::Spent(_)) => Ok(None),
    }
}

/// The nogood of the set that `minimal` finds, or none where it finds none.
pub fn ask_nogood(
    alloc: Global,
    rules: &[GroundRule],
    free: u32,
    set: u32,
    outer: Option<u32>,
) -> Result<Option<u32>, NoMemory> {
    let set = interpretation(alloc, 8, set)?;
    let free = atoms_of(alloc, free)?;
    ask_nogood_of(alloc, rules, free.as_slice(), &set, outer)
}

/// Each of the two atoms alone is supported by the other.
const LOOP: &str = "%@exists a :- b. b :- a.";

const LOOPS: &str = "%@exists a :- b. b :- a. c :- d. d :- c.";

/// All three stay or leave together.
const CYCLE: &str = "%@exists a | b | c. a :- b. b :- c. c :- a.";

/// A choice supports its atom where its body is true, and says nothing where its atom is false.
const CHOICES: &str = "%@exists {a}. {b} :- a. {c} :- a.";

const NEGATION: &str = "%@exists a :- not b. b :- not a. :- c.";

/// A text, the free atoms, the set, the budget and the answer.
type Asked = (&'static str, u32, u32, u64, Answer);

const ANSWERS: [Asked; 35] = [
    (LOOP, 0, A | B, 9, Answer::No(A | B)),
    (LOOP, 0, 0, 9, Answer::Yes),
    (LOOP, A, A | B, 9, Answer::Yes),
    (LOOP, A | B, A | B, 9, Answer::Yes),
    (LOOP, C, A | B, 9, Answer::No(A | B)),
    // Nothing supports c.
    (LOOP, A, A | B | C, 27, Answer::No(C)),
    (CYCLE, 0, A | B | C, 27, Answer::Yes),
    (
        "%@exists a :- b. b :- c. c :- a.",
        0,
        A | B | C,
        27,
        Answer::No(A | B | C),
    ),
    // a and b leave together, and c doesn't.
    (
        "%@exists c | a. c. a :- b. b :- a.",
        0,
        A | B | C,
        27,
        Answer::No(A | B),
    ),
    ("%@exists c | a. c. a :- b. b :- a.", 0, C, 27, Answer::Yes),
    (CHOICES, 0, A | B, 9, Answer::Yes),
    (CHOICES, 0, A, 9, Answer::Yes),
    (CHOICES, 0, 0, 9, Answer::Yes),
    (CHOICES, 0, B, 9, Answer::No(B)),
    // b is a fact, and a false.
    ("%@exists b. {a} :- b.", 0, B, 9, Answer::Yes),
    (NEGATION, 0, A, 9, Answer::Yes),
    (NEGATION, 0, B, 9, Answer::Yes),
    (NEGATION, B, A | B, 9, Answer::No(A)),
    (NEGATION, 0, 0, 9, Answer::NoModel),
    (NEGATION, 0, A | C, 9, Answer::NoModel),
    // One is decided, and two follow: the refutation takes a fourth placement.
    (CYCLE, 0, A | B | C, 3, Answer::Spent),
    (CYCLE, 0, A | B | C, 27, Answer::Yes),
    // No atom is left to search for.
    (CYCLE, A | B | C, A | B | C, 1, Answer::Yes),
    // The loop is unfounded too, and c alone: without a placement.
    (
        "%@exists a :- b. b :- a. c :- not a.",
        0,
        A | B | C,
        0,
        Answer::No(C),
    ),
    // Without a disjunction nothing is searched for.
    (LOOP, 0, A | B, 0, Answer::No(A | B)),
    (LOOP, B, A | B, 0, Answer::Yes),
    // Of two loops one is named, with what it needs.
    (LOOPS, 0, A | B | C | D, 0, Answer::No(A | B)),
    (LOOPS, A, A | B | C | D, 0, Answer::No(C | D)),
    (
        "%@exists a :- b. b :- a. b :- c. c :- d. d :- c.",
        0,
        A | B | C | D,
        0,
        Answer::No(A | B | C | D),
    ),
    // The disjunction supports the loop, since no other atom of its head is true.
    ("%@exists a | c. a :- b. b :- a.", 0, A | B, 0, Answer::Yes),
    (
        "%@exists a | b. a :- b. b :- a.",
        0,
        A | B,
        0,
        Answer::Spent,
    ),
    ("%@exists a | b. a :- b. b :- a.", 0, A | B, 9, Answer::Yes),
    // With a true, the disjunction doesn't support b.
    ("%@exists a | b. a :- b.", 0, A | B, 0, Answer::No(B)),
    ("%@exists a | b. a :- b.", B, A | B, 3, Answer::Yes),
    // No atom supports itself.
    ("%@exists a :- a. b.", 0, A | B, 0, Answer::No(A)),
];

/// Whether the set of a row has its answer.
fn is_answered(alloc: Global, row: &Asked) -> bool {
    let (text, free, set, budget, answer) = *row;
    let Some(game) = game(alloc, text) else {
        return false;
    };
    match ask(alloc, first_rules(&game), free, set, budget) {
        Ok(found) => found == answer,
        Err(_) => false,
    }
}

fn ask_rows(alloc: Global, rows: &[Asked]) -> Result<(), Fail> {
    let mut number = 0u32;
    for row in rows {
        number = number.saturating_add(1);
        expect_number(is_answered(alloc, row), row.0, number)?;
    }
    Ok(())
}

#[test]
fn tells_answer_sets(rt: HostRuntime) -> Result<(), Fail> {
    ask_rows(rt.alloc(), &ANSWERS)
}

/// A text, the free atoms, the set, the outer atoms for the nogood that denies the first atom of the unfounded set, none for the
/// one that denies them all, and the literals of the nogood: the denials, and one for each rule that could support the set.
type Denied = (&'static str, u32, u32, Option<u32>, Option<u32>);

const NOGOODS: [Denied; 13] = [
    // not a, not b
    (LOOP, 0, A | B, None, Some(0b0101)),
    // c is false: c too.
    (
        "%@exists a :- b. b :- a. a :- c.",
        0,
        A | B,
        None,
        Some(0b10_0101),
    ),
    // c is true: not c too.
    (
        "%@exists a :- b. b :- a. a :- not c. c.",
        0,
        A | B | C,
        None,
        Some(0b1_0101),
    ),
    (
        "%@exists a :- b. b :- a. a | c. c.",
        0,
        A | B | C,
        None,
        Some(0b1_0101),
    ),
    (LOOP, A, A | B, None, None),
    // not a
    (LOOP, 0, A | B, Some(0), Some(0b01)),
    // c too, also where b is the head.
    (
        "%@exists a :- b. b :- a. b :- c.",
        0,
        A | B,
        Some(0),
        Some(0b10_0001),
    ),
    // c and d are false: c, and d where that is an outer atom.
    (OUTER_FALSE, 0, A | B, Some(0), Some(0b0010_0001)),
    (OUTER_FALSE, 0, A | B, Some(D), Some(0b1000_0001)),
    // c is false and d true: c, and not d where that is an outer atom.
    (OUTER_TRUE, 0, A | B | D, Some(0), Some(0b0010_0001)),
    (OUTER_TRUE, 0, A | B | D, Some(D), Some(0b0100_0001)),
    // No outer atom but d, and d holds: c.
    (
        "%@exists a :- b. b :- a. a :- c, d. d.",
        0,
        A | B | D,
        Some(D),
        Some(0b0010_0001),
    ),
    (LOOP, A, A | B, Some(0), None),
];

const OUTER_FALSE: &str = "%@exists a :- b. b :- a. a :- c, d.";

const OUTER_TRUE: &str = "%@exists a :- b. b :- a. a :- c, not d. d.";

/// Whether the set of a row has its nogood.
fn is_denied(alloc: Global, row: &Denied) -> bool {
    let (text, free, set, outer, nogood) = *row;
    let Some(game) = game(alloc, text) else {
        return false;
    };
    match ask_nogood(alloc, first_rules(&game), free, set, outer) {
        Ok(found) => found == nogood,
        Err(_) => false,
    }
}

fn deny_rows(alloc: Global, rows: &[Denied]) -> Result<(), Fail> {
    let mut number = 0u32;
    for row in rows {
        number = number.saturating_add(1);
        expect_number(is_denied(alloc, row), row.0, number)?;
    }
    Ok(())
}

#[test]
fn makes_nogoods(rt: HostRuntime) -> Result<(), Fail> {
    deny_rows(rt.alloc(), &NOGOODS)
}
