//! The calls of a search.

ghost use Rattle.std.specs.Prelude.{◌≡◌, ◌≢◌, ℕ, ◌+◌, ◌*◌, ◌<◌, ◌≤◌, ◌^◌, List, [], length, true, Some, None, Ok, Err, IfOk, IfSome, OnOk, OnErr};
ghost use Rattle.asp_clauses.specs.Literal.{most_atoms};
ghost use Rattle.asp_search.specs.Meaning.{SameMeaning};
ghost use Rattle.asp_search.specs.Seen.{AreCodes};
ghost use Rattle.asp_search.specs.Cores.{IsCore};
ghost use Rattle.asp_search.specs.Found.{assignment_of};
ghost use Rattle.asp_search.specs.State.{IsFresh, Adds, AddsLoose, AreDifferent, GoesOn, IsFound, IsLeast, HasFound};

use crate::NoMemory;
use crate::activity::{ClauseActivity, LevelCount};
use crate::clause::add_clause;
use crate::drop::drop_loose;
use crate::fault::SearchFault;
use crate::jump::unwind;
use crate::outcome::Outcome;
use crate::seen::Seen;
use crate::solver::{Solver, is_true};
use crate::stage::Stage;
use crate::steps::run;
use asp_clauses::{Book, Trail};
use asp_decide::DecisionHeap;
use std::alloc::Global;
use std::marker::Model;

/// A search for an assignment that satisfies clauses under assumptions.
///
/// | stage | call | answer | new stage |
/// |---|---|---|---|
/// | any | `begin` | ok | `Begun` |
/// | `Found` | `add`, `add_loose` | ok | `Extended` |
/// | another | `add`, `add_loose` | ok | the same |
/// | `Begun`, `Extended` | `next` | `Found` | `Found` |
/// | `Begun`, `Extended` | `next` | `Core` | `Begun` |
/// | `Begun`, `Extended` | `next` | spent, no memory | `Spent`, `NoMemory` |
/// | `Found`, `Spent`, `NoMemory` | `next` | the same again | the same |
#[derive(Drop)]
pub struct Search {
    solver: Solver,
    budget: u64,
    // How `next` was asked since `begin`; none before its first call.
    ordered: Option<bool>,
    stage: Stage,
}

impl Model for Search {
    ghost use Rattle.asp_search.specs.State.{SearchState};

    ghost Value = { SearchState };

    ghost use Rattle.asp_search.specs.SearchFields.{state_of, IsSound};

    ghost view = { state_of };

    ghost invariant = { IsSound };
}

impl Search {
    /// A search without clauses over the atoms below `atoms`, each run of which places at most `budget` literals.
    /// `NoMemory`: memory was refused.
    pub fn new(alloc: Global, atoms: u32, budget: u64) -> Result<Search, NoMemory>
        requires { atoms ≤ most_atoms }
        ensures { IfOk result (λ search. IsFresh search atoms budget) }
    {
        let book = Book::new(alloc, atoms)?;
        let trail = Trail::new(alloc, atoms, budget)?;
        let heap = DecisionHeap::new(alloc, atoms)?;
        let seen = Seen::new(alloc, 2 * atoms)?;
        let levels = LevelCount::new(alloc, atoms)?;
        let solver = Solver {
            book,
            trail,
            heap,
            seen,
            loose: false,
            looked: 0,
            ground_loose: false,
            activity: ClauseActivity::new(alloc),
            levels,
            learned: Vec::new(alloc),
            assumed: Vec::new(alloc),
            cursor: 0,
            held: 0,
            front: 0,
            in_order: true,
            decided: 0,
        };
        Ok(Search {
            solver,
            budget,
            ordered: None,
            stage: Stage::New,
        })
    }

    /// Adds a firm clause: at least one of its literals has to be true. A literal may stand in it twice, and so may both
    /// literals of an atom; the empty clause is never satisfied. `NoMemory`: memory was refused, or the clauses' numbers are
    /// used up; the search is as it was.
    pub fn add(&mut self, alloc: Global, clause: &[u32]) -> Result<(), NoMemory>
        requires { AreCodes (2 * self.old.atoms) clause.now }
        ensures added { OnOk result (Adds self.old self.new clause.now) }
        ensures unchanged { OnErr result (self.new ≡ self.old) }
    {
        add_clause(&mut self.solver, alloc, clause, false)?;
        if self.stage == Stage::Found {
            self.stage = Stage::Extended;
        }
        Ok(())
    }

    /// Adds a loose clause: as `add`, but it holds only until the next `begin`, and so does what is learned from it.
    /// `NoMemory`: memory was refused, or the clauses' numbers are used up; the search is as it was.
    pub fn add_loose(&mut self, alloc: Global, clause: &[u32]) -> Result<(), NoMemory>
        requires { AreCodes (2 * self.old.atoms) clause.now }
        ensures added { OnOk result (AddsLoose self.old self.new clause.now) }
        ensures unchanged { OnErr result (self.new ≡ self.old) }
    {
        add_clause(&mut self.solver, alloc, clause, true)?;
        if self.stage == Stage::Found {
            self.stage = Stage::Extended;
        }
        Ok(())
    }

    /// Begins a search under assumptions. The loose clauses are dropped, and what was learned from them; the other learned
    /// clauses stay, and so do activities and phases. It takes the time of the assumptions, of the literals that are placed, and
    /// of the clauses from the first loose one on. `NoMemory`: memory was refused; the search is as it was.
    pub fn begin(&mut self, alloc: Global, assume: &[u32]) -> Result<(), NoMemory>
        requires codes { AreCodes (2 * self.old.atoms) assume.now }
        requires different { AreDifferent assume.now }
        ensures begun { OnOk result
            (self.new ≡ record self.old { count = 0; clauses = self.old.firm; assumed = assume.now; trail = []; ordered = None; stage = Stage.Begun }) }
        ensures unchanged { OnErr result (self.new ≡ self.old) }
    {
        let assumed = Vec::from_slice(alloc, assume)?;
        self.ordered = None;
        self.stage = Stage::Begun;
        unwind(
            &mut self.solver.heap,
            &mut self.solver.front,
            &self.solver.trail,
            0,
        );
        self.solver.trail.reset();
        self.solver.activity.keep_firm(&self.solver.book);
        drop_loose(&mut self.solver.book, &self.solver.trail);
        self.solver.looked = 0;
        self.solver.ground_loose = false;
        self.solver.assumed = assumed;
        self.solver.cursor = 0;
        self.solver.held = 0;
        self.solver.front = 0;
        self.solver.in_order = true;
        Ok(())
    }

    /// Searches on. After a fault the same fault is answered until the next `begin`, and after `Found` the same until
    /// a clause is added. `ordered`, the same in all calls since `begin`, decides the first unassigned atom, false, each time,
    /// and so finds the first assignment, where falsity comes before truth and lower atoms count more; else activities and
    /// phases choose. `Spent`: as many literals were placed since `begin` as the budget allows.
    /// `NoMemory`: memory was refused; added clauses stay.
    pub fn next(&mut self, alloc: Global, ordered: bool) -> Result<Outcome, SearchFault>
        requires begun { self.old.stage ≢ Stage.New }
        requires same { IfSome self.old.ordered (λ was. was ≡ ordered) }
        ensures goes_on { GoesOn self.old self.new }
        ensures found { result ≡ Ok Outcome.Found → IsFound self.new }
        ensures least { result ≡ Ok Outcome.Found → ordered ≡ true → IsLeast self.new }
        ensures core { (core : List ℕ) → result ≡ Ok (Outcome.Core core) → IsCore self.old.clauses self.old.assumed core }
        ensures spent { result ≡ Err SearchFault.Spent → self.new.count ≡ self.new.budget }
        ensures few { self.new.count < 3 ^ self.new.atoms }
        ensures ordered { self.new.ordered ≡ Some ordered }

        // The stage after each answer.
        ensures stage_found { result ≡ Ok Outcome.Found → self.new.stage ≡ Stage.Found }
        ensures stage_core { (core : List ℕ) → result ≡ Ok (Outcome.Core core) → self.new.stage ≡ Stage.Begun }
        ensures stage_spent { result ≡ Err SearchFault.Spent → self.new.stage ≡ Stage.Spent }
        ensures stage_no_memory { result ≡ Err SearchFault.NoMemory → self.new.stage ≡ Stage.NoMemory }

        // What comes again.
        ensures found_again { self.old.stage ≡ Stage.Found → (result ≡ Ok Outcome.Found) × (self.new ≡ self.old) }
        ensures spent_again { self.old.stage ≡ Stage.Spent → (result ≡ Err SearchFault.Spent) × (self.new ≡ self.old) }
        ensures no_memory_again { self.old.stage ≡ Stage.NoMemory
            → (result ≡ Err SearchFault.NoMemory) × (self.new ≡ self.old) }
    {
        match self.stage {
            Stage::Found => Ok(Outcome::Found),
            Stage::Spent => Err(SearchFault::Spent),
            Stage::NoMemory => Err(SearchFault::NoMemory),
            Stage::New | Stage::Begun | Stage::Extended => {
                self.ordered = Some(ordered);
                self.solver.in_order = ordered;
                let outcome = run(&mut self.solver, alloc);
                self.stage = stage_after(&outcome);
                outcome
            }
        }
    }

    /// The value of an atom in the assignment that was found.
    pub fn value(&self, atom: u32) -> bool
        requires atom { atom < self.now.atoms }
        requires found { HasFound self.now }
        ensures { result ≡ assignment_of self.now.trail atom }
    {
        is_true(&self.solver.trail, 2 * atom + 1)
    }

    /// How many literals a run may place.
    pub fn budget(&self) -> u64
        ensures { result ≡ self.now.budget }
    {
        self.budget
    }

    /// How many clauses are kept: those that hold, but for those with both literals of an atom, and the learned ones.
    pub fn clauses(&self) -> u32
        ensures { result ≡ length self.now.clauses }
    {
        self.solver.book.len()
    }

    /// How many literals were placed since the search began.
    pub fn placements(&self) -> u64
        ensures { result ≡ self.now.count }
    {
        self.solver.trail.count()
    }

    /// How many conflicts taught a clause since the search was made.
    pub fn conflicts(&self) -> u64
        ensures { result ≡ self.now.conflicts }
    {
        self.solver.activity.total()
    }

    /// Has about half of the learned clauses of several levels dropped after so many conflicts, and then at intervals that
    /// grow by a part of themselves: a short interval, as for tests, forgets more. It changes how long a search takes and no
    /// answer's meaning.
    pub fn set_interval(&mut self, conflicts: u64)
        ensures { self.new ≡ record self.old { interval = conflicts } }
    {
        self.solver.activity.set_interval(conflicts);
    }

    /// How many literals were decided since the search was made.
    pub fn decisions(&self) -> u64
        ensures { result ≡ self.now.decisions }
    {
        self.solver.decided
    }
}

/// The stage after a run.
fn stage_after(outcome: &Result<Outcome, SearchFault>) -> Stage
    ensures found { outcome.now ≡ Ok Outcome.Found → result ≡ Stage.Found }
    ensures core { (core : List ℕ) → outcome.now ≡ Ok (Outcome.Core core) → result ≡ Stage.Begun }
    ensures spent { outcome.now ≡ Err SearchFault.Spent → result ≡ Stage.Spent }
    ensures no_memory { outcome.now ≡ Err SearchFault.NoMemory → result ≡ Stage.NoMemory }
    ensures only_found { result ≡ Stage.Found → outcome.now ≡ Ok Outcome.Found }
    ensures only_spent { result ≡ Stage.Spent → outcome.now ≡ Err SearchFault.Spent }
{
    match outcome {
        Ok(Outcome::Found) => Stage::Found,
        Ok(Outcome::Core(_)) => Stage::Begun,
        Err(SearchFault::Spent) => Stage::Spent,
        Err(SearchFault::NoMemory) => Stage::NoMemory,
    }
}
