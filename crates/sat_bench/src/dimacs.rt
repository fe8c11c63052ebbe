//! Formulas in DIMACS form: comments, a line `p cnf ATOMS CLAUSES`, and clauses, each ended by 0. The clauses are searched
//! where the text ends.
//!
//! Besides, several searches can be run over the clauses one after the other. A line `a LITERALS 0` begins a further search
//! under these assumptions, whose atoms ascend, and a line `l LITERALS 0` adds a loose clause to the search that is run next:
//! it goes where the one after that begins. A search that was begun by a line is run where the next one begins, or the text
//! ends.

ghost use Rattle.std.specs.Prelude.{◌≡◌, ◌≢◌, ◌*◌, ◌<◌, ◌≤◌, Bool, Some, false, IfOk};
ghost use Rattle.asp_clauses.specs.Literal.{most_atoms};
ghost use Rattle.asp_search.specs.Seen.{AreCodes};
ghost use Rattle.asp_search.specs.declared.stage.Stage.TheVariants.{New};

use crate::literals::{are_ascending, code};
use crate::runs::{NO_RUNS, Runs};
use asp_search::{Outcome, Search, SearchFault};
use std::alloc::{AllocError, Global};
use thiserror::Error;

/// The most atoms that a search is over.
const MOST_ATOMS: u32 = 262_144;

/// Why a text can't be searched.
#[derive(Debug, Drop, Error)]
pub enum DimacsError {
    /// A line `p cnf ATOMS CLAUSES` is missing.
    #[error("no line `p cnf ATOMS CLAUSES`")]
    NoHeader,
    /// The header names more atoms than a search is over.
    #[error("more than 262144 atoms")]
    TooManyAtoms,
    /// A word is no number, or a number beyond the atoms.
    #[error("a word that is no literal of the atoms")]
    BadLiteral,
    /// The last clause isn't ended, or one isn't ended before a line of assumptions or of a loose clause, or such a line isn't.
    #[error("a clause or a line of literals is not ended by 0")]
    Unended,
    /// Assumptions whose atoms don't ascend.
    #[error("assumptions whose atoms do not ascend")]
    BadAssumptions,
    /// Memory was refused.
    #[error("out of memory")]
    NoMemory(#[from] AllocError),
    /// A search gave no answer.
    #[error("{0}")]
    NoAnswer(#[from] SearchFault),
}

/// What the literals of a line are.
#[derive(Clone, Copy, PartialEq, Eq)]
enum LineKind {
    Clause,
    Loose,
    Assumptions,
}

/// A text that is being read: a search over its first clauses, which has begun, and the next literals so far.
#[derive(Drop)]
struct Formula {
    search: Search,
    atoms: u32,
    literals: Vec<u32>,
    // Whether a line of assumptions began the search.
    asked: bool,
    runs: Runs,
    ghost few: { atoms ≤ most_atoms },
    ghost same_atoms: { search.atoms ≡ atoms },
    ghost codes: { AreCodes (2 * atoms) literals.items },
    ghost begun: { search.stage ≢ New },
    ghost same: { (was : Bool) → search.ordered ≡ Some was → was ≡ false },
}

impl Formula {
    /// No clause yet.
    fn new(alloc: Global, atoms: u32) -> Result<Formula, DimacsError>
        requires { atoms ≤ most_atoms }
    {
        let mut search = Search::new(alloc, atoms, u64::MAX)?;
        search.begin(alloc, &[])?;
        Ok(Formula {
            search,
            atoms,
            literals: Vec::new(alloc),
            asked: false,
            runs: NO_RUNS,
        })
    }

    /// Takes the words of a line.
    fn take_line(&mut self, alloc: Global, line: &str) -> Result<(), DimacsError> {
        if let Some(words) = line.strip_prefix("a ") {
            return self.take_all(alloc, words, LineKind::Assumptions);
        }
        if let Some(words) = line.strip_prefix("l ") {
            return self.take_all(alloc, words, LineKind::Loose);
        }
        for word in line.split_whitespace() {
            self.take(alloc, word, LineKind::Clause)?;
        }
        Ok(())
    }

    /// Takes the words of a line that begins and ends outside of any clause.
    fn take_all(&mut self, alloc: Global, words: &str, kind: LineKind) -> Result<(), DimacsError> {
        self.check_ended()?;
        for word in words.split_whitespace() {
            self.take(alloc, word, kind)?;
        }
        self.check_ended()
    }

    /// Refuses literals that are left.
    fn check_ended(&self) -> Result<(), DimacsError> {
        if self.literals.is_empty() {
            Ok(())
        } else {
            Err(DimacsError::Unended)
        }
    }

    /// Takes a literal, or ends the literals at a 0.
    fn take(&mut self, alloc: Global, word: &str, kind: LineKind) -> Result<(), DimacsError> {
        let Ok(number) = word.parse::<i32>() else {
            return Err(DimacsError::BadLiteral);
        };
        if number == 0 {
            return self.end(alloc, kind);
        }
        let Some(code) = code(number, self.atoms) else {
            return Err(DimacsError::BadLiteral);
        };
        match self.literals.push(code) {
            Ok(()) => Ok(()),
            Err(_) => Err(DimacsError::NoMemory(AllocError)),
        }
    }

    /// Adds the clause, or begins a search under the assumptions.
    fn end(&mut self, alloc: Global, kind: LineKind) -> Result<(), DimacsError> {
        match kind {
            LineKind::Clause => self.search.add(alloc, self.literals.as_slice())?,
            LineKind::Loose => self.search.add_loose(alloc, self.literals.as_slice())?,
            LineKind::Assumptions => self.begin(alloc)?,
        }
        self.literals.clear();
        Ok(())
    }

    /// Runs the search that a line began, and begins one under the assumptions.
    fn begin(&mut self, alloc: Global) -> Result<(), DimacsError> {
        if self.asked {
            self.run(alloc)?;
        }
        if !are_ascending(self.literals.as_slice()) {
            return Err(DimacsError::BadAssumptions);
        }
        self.search.begin(alloc, self.literals.as_slice())?;
        self.asked = true;
        Ok(())
    }

    /// Runs the search that has begun.
    fn run(&mut self, alloc: Global) -> Result<(), DimacsError> {
        let found = match self.search.next(alloc, false)? {
            Outcome::Found => true,
            Outcome::Core(_) => false,
        };
        self.runs = Runs {
            searches: self.runs.searches.saturating_add(1),
            found: self.runs.found.saturating_add(u64::from(found)),
            last_found: found,
            placements: self
                .runs
                .placements
                .saturating_add(self.search.placements()),
            decisions: self.search.decisions(),
            conflicts: self.search.conflicts(),
        };
        Ok(())
    }
}

/// How many atoms the header names.
fn atoms(text: &str) -> Result<u32, DimacsError>
    ensures { IfOk result (λ atoms. atoms ≤ most_atoms) }
{
    for line in text.lines() {
        if line.starts_with("p cnf ") {
            return header(line);
        }
    }
    Err(DimacsError::NoHeader)
}

fn header(line: &str) -> Result<u32, DimacsError>
    ensures { IfOk result (λ atoms. atoms ≤ most_atoms) }
{
    match line.split_whitespace().nth(2) {
        Some(word) => match word.parse::<u32>() {
            Ok(atoms) if atoms <= MOST_ATOMS => Ok(atoms),
            Ok(_) => Err(DimacsError::TooManyAtoms),
            Err(_) => Err(DimacsError::NoHeader),
        },
        None => Err(DimacsError::NoHeader),
    }
}

/// Runs the searches of the text.
pub fn search_all(alloc: Global, text: &str) -> Result<Runs, DimacsError> {
    let atoms = atoms(text)?;
    let mut formula = Formula::new(alloc, atoms)?;
    for line in text.lines() {
        if !line.starts_with('c') && !line.starts_with('p') {
            formula.take_line(alloc, line)?;
        }
    }
    formula.check_ended()?;
    formula.run(alloc)?;
    Ok(formula.runs)
}
