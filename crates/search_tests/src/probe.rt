//! A search that has begun, with answers in numbers.
//!
//! A set of literals over at most 16 atoms is a number: bit `2 * atom + 1` stands for the atom, bit `2 * atom` for its negation.
//! Over more atoms a bit stands for each 16th of them.

ghost use Rattle.std.specs.Prelude.{◌≡◌, ◌≢◌, ◌≤◌, Bool, Ok, Some};
ghost use Rattle.asp_clauses.specs.Literal.{most_atoms};
ghost use Rattle.asp_search.specs.declared.stage.Stage.TheVariants.{New};
ghost use Rattle.asp_search.specs.State.{HasFound};

use crate::literals::{are_ascending, are_codes};
use asp_search::{NoMemory, Outcome, Search, SearchFault};
use std::alloc::Global;
use std::test::Fail;

/// What a search answered.
#[derive(Clone, Copy, PartialEq, Eq)]
pub enum Answer {
    /// An assignment: the literals that are true.
    Found(u32),
    /// The literals of a core, and how many there are.
    Core(u32, usize),
    Spent,
    NoMemory,
}

/// A search that has begun, with answers in numbers.
#[derive(Drop)]
pub struct Probe {
    pub search: Search,
    pub atoms: u32,
    ordered: bool,
    ghost same_atoms: { search.atoms ≡ atoms },
    ghost begun: { search.stage ≢ New },
    ghost same: { (was : Bool) → search.ordered ≡ Some was → was ≡ ordered },
}

impl Probe {
    /// A search over so many atoms that has begun without assumptions.
    pub fn new(alloc: Global, atoms: u32, budget: u64) -> Result<Probe, Fail>
        requires { atoms ≤ most_atoms }
    {
        let mut search = Search::new(alloc, atoms, budget)?;
        search.begin(alloc, &[])?;
        Ok(Probe {
            search,
            atoms,
            ordered: false,
        })
    }

    /// Adds a clause, and fails where a code is no literal of the atoms.
    pub fn add(&mut self, alloc: Global, clause: &[u32]) -> Result<(), Fail> {
        if !are_codes(clause, self.atoms) {
            return Err(Fail::new("no literals of the atoms"));
        }
        self.search.add(alloc, clause)?;
        Ok(())
    }

    /// Adds a clause that holds until the search begins again, and fails where a code is no literal of the atoms.
    pub fn add_loose(&mut self, alloc: Global, clause: &[u32]) -> Result<(), Fail> {
        if !are_codes(clause, self.atoms) {
            return Err(Fail::new("no literals of the atoms"));
        }
        self.search.add_loose(alloc, clause)?;
        Ok(())
    }

    /// Has learned clauses dropped at every conflict.
    pub fn forget(&mut self) {
        self.search.set_interval(1);
    }

    /// Begins under assumptions, and fails where they aren't ascending literals of the atoms.
    pub fn begin(&mut self, alloc: Global, assumed: &[u32]) -> Result<(), Fail> {
        self.begin_as(alloc, assumed, false)
    }

    /// The same; `ordered` asks for the first assignment, in the order of the atoms.
    fn begin_as(&mut self, alloc: Global, assumed: &[u32], ordered: bool) -> Result<(), Fail> {
        if !are_codes(assumed, self.atoms) {
            return Err(Fail::new("no literals of the atoms"));
        }
        if !are_ascending(assumed) {
            return Err(Fail::new("no literals of the atoms"));
        }
        self.search.begin(alloc, assumed)?;
        self.ordered = ordered;
        Ok(())
    }

    /// The next answer.
    pub fn next(&mut self, alloc: Global) -> Answer {
        let outcome = self.search.next(alloc, self.ordered);
        answer_of(&self.search, self.atoms, outcome)
    }
}

/// What the search's outcome says, in numbers.
fn answer_of(search: &Search, atoms: u32, outcome: Result<Outcome, SearchFault>) -> Answer
    requires atoms { search.now.atoms ≡ atoms }
    requires found { outcome ≡ Ok Outcome.Found → HasFound search.now }
{
    match outcome {
        Ok(Outcome::Found) => Answer::Found(true_literals(search, atoms)),
        Ok(Outcome::Core(core)) => Answer::Core(bits_of(core.as_slice()), core.len()),
        Err(SearchFault::Spent) => Answer::Spent,
        Err(SearchFault::NoMemory) => Answer::NoMemory,
    }
}

/// The literals that are true in what was found.
fn true_literals(search: &Search, atoms: u32) -> u32
    requires atoms { search.now.atoms ≡ atoms }
    requires found { HasFound search.now }
{
    let mut bits = 0u32;
    for atom in 0..atoms {
        bits |= bit(2 * (atom % 16) + u32::from(search.value(atom)));
    }
    bits
}

/// The bit that stands for the literal.
pub fn bit(literal: u32) -> u32 {
    1 << (literal % 32)
}

fn bits_of(literals: &[u32]) -> u32 {
    let mut bits = 0u32;
    for literal in literals {
        bits |= bit(*literal);
    }
    bits
}

fn literals_of(alloc: Global, bits: u32) -> Result<Vec<u32>, NoMemory> {
    let mut literals = Vec::new(alloc);
    for literal in 0..32u32 {
        if (bits >> literal) % 2 == 1 {
            literals.push(literal)?;
        }
    }
    Ok(literals)
}

/// Adds a clause that is bits of literals.
fn add_bits(alloc: Global, probe: &mut Probe, clause: u32) -> Result<(), Fail> {
    let literals = literals_of(alloc, clause)?;
    probe.add(alloc, literals.as_slice())
}

fn add_all(alloc: Global, probe: &mut Probe, clauses: &[u32]) -> Result<(), Fail> {
    for clause in clauses {
        add_bits(alloc, probe, *clause)?;
    }
    Ok(())
}

/// Adds clauses that are bits of literals, and that hold until the search begins again.
pub fn add_loose(alloc: Global, probe: &mut Probe, clauses: &[u32]) -> Result<(), Fail> {
    for clause in clauses {
        let literals = literals_of(alloc, *clause)?;
        probe.add_loose(alloc, literals.as_slice())?;
    }
    Ok(())
}

/// A search over clauses that are bits of literals.
pub fn probe_of(alloc: Global, atoms: u32, budget: u64, clauses: &[u32]) -> Result<Probe, Fail>
    requires { atoms ≤ 16 }
{
    let mut probe = Probe::new(alloc, atoms, budget)?;
    add_all(alloc, &mut probe, clauses)?;
    Ok(probe)
}

/// Begins anew under assumptions that are bits of literals, at most one of each atom.
pub fn ask(alloc: Global, probe: &mut Probe, assumed: u32) -> Result<Answer, Fail> {
    let literals = literals_of(alloc, assumed)?;
    probe.begin(alloc, literals.as_slice())?;
    Ok(probe.next(alloc))
}

/// Begins anew, and decides the first atom without a value, false, each time.
pub fn ask_in_order(alloc: Global, probe: &mut Probe) -> Result<Answer, Fail> {
    probe.begin_as(alloc, &[], true)?;
    Ok(probe.next(alloc))
}
