//! Searches that were worked out by hand.

use crate::formulas::is_right;
use crate::probe::{Answer, Probe, probe_of};
use crate::rows::expect;
use asp_search::NoMemory;
use std::alloc::Global;
use std::test::Fail;

/// The most atoms that a search is over.
const MOST_ATOMS: u32 = 262_144;

/// The literals of 16 atoms, or of all atoms, each true.
const ALL_TRUE: u32 = 0xaaaa_aaaa;

/// The same, each false.
const ALL_FALSE: u32 = 0x5555_5555;

/// What is done with a search, and what it answers.
enum Act {
    /// Adds the clause of these literals.
    Add(&'static [u32]),
    /// Adds the clause of these literals until the search begins anew.
    AddLoose(&'static [u32]),
    /// Has learned clauses dropped at every conflict from now on.
    Forget,
    /// Begins anew under the assumption of these literals.
    Begin(&'static [u32]),
    /// The next answer is this one.
    Answer(Answer),
    /// The next answer is right for these clauses, which are bits of literals.
    Right(&'static [u32]),
    /// So many literals were decided, and so many placed.
    Placed(u64, u64),
    /// So many clauses are kept.
    Clauses(u32),
    /// So many conflicts taught a clause.
    Conflicts(u64),
    /// So many literals may be placed.
    Budget(u64),
    /// Adds that each atom implies the next, over as many as there can be.
    AddChain,
    /// Adds that not all of as many atoms as there can be are true.
    AddLongest,
    /// Begins under the assumption that each of as many atoms as there can be has this value.
    BeginLongest(bool),
}

/// A name, how many atoms there are, the budget, and what is done one after the other.
type Script = (&'static str, u32, u64, &'static [Act]);

const SCRIPTS: [Script; 12] = [
    // Atom 0 or atom 1, and not atom 0: both literals are implied.
    (
        "finds the one assignment",
        2,
        9,
        &[
            Act::Add(&[1, 3]),
            Act::Add(&[0]),
            Act::Answer(Answer::Found(0b1001)),
            Act::Placed(0, 2),
            Act::Clauses(2),
        ],
    ),
    // Atom 0 or atom 1, under both negations.
    (
        "answers both assumptions",
        2,
        9,
        &[
            Act::Add(&[1, 3]),
            Act::Begin(&[0, 2]),
            Act::Answer(Answer::Core(0b0101, 2)),
        ],
    ),
    // Two atoms need two placements.
    (
        "finds with just enough",
        2,
        2,
        &[Act::Right(&[]), Act::Budget(2)],
    ),
    // One placement is too few for two atoms, and enough to refuse an assumption.
    (
        "begins again after it is spent",
        2,
        1,
        &[
            Act::Answer(Answer::Spent),
            Act::Answer(Answer::Spent),
            Act::Add(&[0]),
            Act::Answer(Answer::Spent),
            Act::Begin(&[1]),
            Act::Answer(Answer::Core(0b10, 1)),
        ],
    ),
    // Atom 0 or atom 1, and not atom 0 by assumption. A clause, in which a literal stands twice, forbids what was found.
    (
        "goes on after an assignment",
        2,
        9,
        &[
            Act::Add(&[1, 3]),
            Act::Begin(&[0]),
            Act::Answer(Answer::Found(0b1001)),
            Act::Answer(Answer::Found(0b1001)),
            Act::Add(&[1, 2, 1]),
            Act::Answer(Answer::Core(0b1, 1)),
        ],
    ),
    // Atom 0 by the clauses: after a core there is an assignment without the assumption.
    (
        "begins again after a core",
        2,
        9,
        &[
            Act::Add(&[1, 3]),
            Act::Add(&[1, 2]),
            Act::Begin(&[0]),
            Act::Answer(Answer::Core(0b1, 1)),
            Act::Begin(&[]),
            Act::Right(&[0b1010, 0b0110]),
        ],
    ),
    // All four clauses over two atoms: not atom 0 implies atom 1, which is a conflict, and so is atom 0 then. That one is
    // learned, and holds without a decision when the search begins again.
    (
        "learns from a conflict",
        2,
        9,
        &[
            Act::Add(&[1, 3]),
            Act::Add(&[1, 2]),
            Act::Add(&[0, 3]),
            Act::Add(&[0, 2]),
            Act::Answer(Answer::Core(0, 0)),
            Act::Placed(1, 4),
            Act::Conflicts(1),
            Act::Clauses(5),
            Act::Begin(&[]),
            Act::Clauses(5),
            Act::Answer(Answer::Core(0, 0)),
            Act::Placed(1, 2),
            Act::Conflicts(1),
        ],
    ),
    // All but the first atom are implied; the first atom and not the last one exclude each other.
    (
        "follows the longest chain",
        MOST_ATOMS,
        262_144,
        &[
            Act::AddChain,
            Act::Begin(&[1]),
            Act::Answer(Answer::Found(ALL_TRUE)),
            Act::Placed(1, 262_144),
            Act::Begin(&[1, 524_286]),
            Act::Answer(Answer::Core(0x4000_0002, 2)),
        ],
    ),
    // Not all atoms are true: that holds where all are false, and it is against the assumptions where all are true.
    (
        "takes the longest clause",
        MOST_ATOMS,
        u64::MAX,
        &[
            Act::AddLongest,
            Act::BeginLongest(false),
            Act::Answer(Answer::Found(ALL_FALSE)),
            Act::BeginLongest(true),
            Act::Answer(Answer::Core(ALL_TRUE, 262_144)),
        ],
    ),
    // Atom 0 or atom 1, and neither of them while two loose clauses hold.
    (
        "drops loose clauses",
        2,
        9,
        &[
            Act::Add(&[1, 3]),
            Act::AddLoose(&[0]),
            Act::AddLoose(&[2]),
            Act::Answer(Answer::Core(0, 0)),
            Act::Begin(&[]),
            Act::Clauses(1),
            Act::Right(&[0b1010]),
        ],
    ),
    // All four clauses over two atoms, one of them loose: atom 0 is learned from it, and goes with it.
    (
        "drops what a loose clause taught",
        2,
        9,
        &[
            Act::Add(&[1, 3]),
            Act::AddLoose(&[1, 2]),
            Act::Add(&[0, 3]),
            Act::Add(&[0, 2]),
            Act::Answer(Answer::Core(0, 0)),
            Act::Conflicts(1),
            Act::Begin(&[]),
            Act::Clauses(3),
            Act::Right(&[0b1010, 0b1001, 0b0101]),
        ],
    ),
    // The first three atoms aren't all true and not all false, by way of the last one. Each conflict teaches that of three
    // levels, the first and the third the same; what was learned before is no reason then, and is dropped as the older one.
    (
        "drops a learned clause",
        4,
        99,
        &[
            Act::Forget,
            Act::Add(&[0, 2, 4, 7]),
            Act::Add(&[0, 2, 4, 6]),
            Act::Add(&[1, 3, 5, 7]),
            Act::Add(&[1, 3, 5, 6]),
            Act::Begin(&[1, 3, 5]),
            Act::Answer(Answer::Core(0b10_1010, 3)),
            Act::Conflicts(1),
            Act::Clauses(5),
            Act::Begin(&[0, 2, 4]),
            Act::Clauses(5),
            Act::Answer(Answer::Core(0b1_0101, 3)),
            Act::Conflicts(2),
            Act::Clauses(5),
            Act::Begin(&[1, 3, 5]),
            Act::Answer(Answer::Core(0b10_1010, 3)),
            Act::Conflicts(3),
            Act::Clauses(5),
        ],
    ),
];

/// Whether the next answer is this one.
fn answers(alloc: Global, probe: &mut Probe, answer: Answer) -> bool {
    probe.next(alloc) == answer
}

/// Whether so many literals were decided and placed.
fn has_placed(probe: &Probe, decisions: u64, placements: u64) -> bool {
    probe.search.decisions() == decisions && probe.search.placements() == placements
}

/// Adds that each atom implies the next.
fn add_chain(alloc: Global, probe: &mut Probe) -> Result<(), Fail> {
    for atom in 1..MOST_ATOMS {
        probe.add(alloc, &[2 * (atom - 1), 2 * atom + 1])?;
    }
    Ok(())
}

/// The literals of as many atoms as there can be, each with this value.
fn longest(alloc: Global, value: bool) -> Result<Vec<u32>, NoMemory> {
    let mut literals = Vec::new(alloc);
    for atom in 0..MOST_ATOMS {
        literals.push(2 * atom + u32::from(value))?;
    }
    Ok(literals)
}

/// Adds that not all atoms are true.
fn add_longest(alloc: Global, probe: &mut Probe) -> Result<(), Fail> {
    // From the last atom on: literals that become false from the first one on would cost the square of the length.
    let mut clause = longest(alloc, false)?;
    clause.reverse();
    probe.add(alloc, clause.as_slice())
}

/// Begins under the assumption that each atom has this value.
fn begin_longest(alloc: Global, probe: &mut Probe, value: bool) -> Result<(), Fail> {
    let assumed = longest(alloc, value)?;
    probe.begin(alloc, assumed.as_slice())
}

/// Does something, and answers whether what is told then is as it should be.
fn does(alloc: Global, probe: &mut Probe, act: &Act) -> Result<bool, Fail> {
    match act {
        Act::Add(clause) => probe.add(alloc, clause)?,
        Act::AddLoose(clause) => probe.add_loose(alloc, clause)?,
        Act::Forget => probe.forget(),
        Act::Begin(assumed) => probe.begin(alloc, assumed)?,
        Act::AddChain => add_chain(alloc, probe)?,
        Act::AddLongest => add_longest(alloc, probe)?,
        Act::BeginLongest(value) => begin_longest(alloc, probe, *value)?,
        _ => return Ok(tells(alloc, probe, act)),
    }
    Ok(true)
}

/// Whether what is told is as it should be.
fn tells(alloc: Global, probe: &mut Probe, act: &Act) -> bool {
    match act {
        Act::Answer(answer) => answers(alloc, probe, *answer),
        Act::Right(clauses) => is_right(probe.next(alloc), clauses, 0),
        Act::Placed(decisions, placements) => has_placed(probe, *decisions, *placements),
        Act::Clauses(count) => probe.search.clauses() == *count,
        Act::Conflicts(count) => probe.search.conflicts() == *count,
        Act::Budget(budget) => probe.search.budget() == *budget,
        _ => false,
    }
}

/// Does one thing after the other, and fails where one isn't as it should be.
fn follow(alloc: Global, probe: &mut Probe, name: &str, acts: &[Act]) -> Result<(), Fail> {
    for act in acts {
        expect(does(alloc, probe, act)?, name)?;
    }
    Ok(())
}

fn run_script(alloc: Global, script: &Script) -> Result<(), Fail> {
    let mut probe = Probe::new(alloc, MOST_ATOMS.min(script.1), script.2)?;
    follow(alloc, &mut probe, script.0, script.3)
}

fn run_scripts(alloc: Global, scripts: &[Script]) -> Result<(), Fail> {
    for script in scripts {
        run_script(alloc, script)?;
    }
    Ok(())
}

#[test]
fn answers_as_worked_out_by_hand(rt: HostRuntime) -> Result<(), Fail> {
    run_scripts(rt.alloc(), &SCRIPTS)
}

/// A search where three pigeons are to sit in two holes: atom `2 * pigeon + hole` says which sits where, so a digit in base
/// 16 has what is said of a pigeon.
fn pigeons(alloc: Global, budget: u64) -> Result<Probe, Fail> {
    let clauses = [
        0x00a, 0x0a0, 0xa00, 0x011, 0x101, 0x110, 0x044, 0x404, 0x440,
    ];
    probe_of(alloc, 6, budget, &clauses)
}

/// The answer under a budget, and the placements that it took.
fn seat_pigeons(alloc: Global, budget: u64) -> Result<(Answer, u64), Fail> {
    let mut probe = pigeons(alloc, budget)?;
    let answer = probe.next(alloc);
    Ok((answer, probe.search.placements()))
}

/// Whether the search is so answered under a budget after so many placements.
fn is_seated(alloc: Global, budget: u64, answer: Answer, placements: u64) -> Result<bool, Fail> {
    let (told, needed) = seat_pigeons(alloc, budget)?;
    Ok(told == answer && needed == placements)
}

// A budget of just the placements that a search with conflicts took, and of one less.
#[test]
fn needs_its_placements(rt: HostRuntime) -> Result<(), Fail> {
    let alloc = rt.alloc();
    let (answer, needed) = seat_pigeons(alloc, u64::MAX)?;
    expect(
        answer == Answer::Core(0, 0),
        "there is no place for one of them",
    )?;
    expect(needed > 1, "places literals")?;
    let core = Answer::Core(0, 0);
    expect(is_seated(alloc, needed, core, needed)?, "needs no more")?;
    let fewer = needed.saturating_sub(1);
    expect(
        is_seated(alloc, fewer, Answer::Spent, fewer)?,
        "needs no fewer",
    )
}

/// Fails where a search doesn't go on after refused memory as if it hadn't come.
fn go_on(alloc: Global, probe: &mut Probe) -> Result<(), Fail> {
    if answers(alloc, probe, Answer::NoMemory) {
        expect(
            answers(alloc, probe, Answer::NoMemory),
            "stays without memory",
        )?;
    }
    probe.begin(alloc, &[1])?;
    expect(answers(alloc, probe, Answer::Core(0, 0)), "goes on")
}

// Here memory is the machine's, so it is refused only where `rt try --test --fail-alloc N` makes it.
#[test]
fn begins_again_out_of_memory(rt: HostRuntime) -> Result<(), Fail> {
    let mut probe = pigeons(rt.alloc(), u64::MAX)?;
    go_on(rt.alloc(), &mut probe)
}
