//! The book of clauses.

ghost use Rattle.std.specs.Prelude.{◌≡◌, ℕ, ◌+◌, ◌*◌, ◌<◌, ◌≤◌, true, false, [], ◌∷◌, ◌++◌, length, map, IfOk, OnErr, slice_index};
ghost use Rattle.asp_clauses.specs.Literal.{most_atoms};
ghost use Rattle.asp_clauses.specs.Trail.{TrailState, clause_at};
ghost use Rattle.asp_clauses.specs.Book.{Goes, IsClause};
ghost use Rattle.asp_clauses.specs.Records.{end};
ghost use Rattle.asp_clauses.specs.Kept.{kept, is_firm, AreFirmBelow, mark_of, kind_at, no_kind, renumbered, IsReason};

use crate::NoMemory;
use crate::compact::{compact, count_kept, keep_added, number_clauses, number_firm, unwatch_from};
use crate::kind::{FIRM, Kind, LOOSE};
use crate::trail::Trail;
use crate::watches::Watches;
use std::alloc::Global;
use std::marker::Model;

/// Clauses by number, each a list of literals of different atoms.
#[derive(Drop)]
pub struct Book {
    pub(crate) watches: Watches,
    // The kind of each clause.
    kinds: Vec<Kind>,
    // The first clauses, as many as this, are firm; after `settle` these are all.
    firm: u32,
}

impl Model for Book {
    ghost use Rattle.asp_clauses.specs.Book.{BookState};

    ghost Value = { BookState };

    ghost use Rattle.std.specs.Prelude.{◌≤◌, length};
    ghost use Rattle.asp_clauses.specs.Watches.{book_of, AreWatches, HaveKinds};
    ghost use Rattle.asp_clauses.specs.Kept.{AreFirmBelow};

    ghost view = { λ b. record (book_of b.watches) { kinds = b.kinds.items } };

    ghost invariant = { λ b. AreWatches b.watches × HaveKinds b.watches b.kinds.items
        × (b.firm ≤ length b.kinds.items) × AreFirmBelow b.kinds.items b.firm };
}

impl Book {
    /// A book without clauses, over the atoms below `atoms`. `NoMemory`: memory was refused.
    pub fn new(alloc: Global, atoms: u32) -> Result<Book, NoMemory>
        requires { atoms ≤ most_atoms }
        ensures empty { IfOk result (λ book. book.clauses ≡ []) }
        ensures no_kinds { IfOk result (λ book. book.kinds ≡ []) }
        ensures atoms { IfOk result (λ book. book.atoms ≡ atoms) }
    {
        Ok(Book {
            watches: Watches::new(alloc, atoms)?,
            kinds: Vec::new(alloc),
            firm: 0,
        })
    }

    /// Appends the clause and answers its number. `NoMemory`: memory was refused, or the clause's number or place or the
    /// count of clauses doesn't fit 32 bits; the book is as it was.
    pub fn add(&mut self, alloc: Global, lits: &[u32]) -> Result<u32, NoMemory>
        requires { IsClause self.old.atoms lits.now }
        ensures number { IfOk result (λ number. number ≡ length self.old.clauses) }
        ensures added { IfOk result (λ _. self.new.clauses ≡ self.old.clauses ++ lits.now ∷ []) }
        ensures kinds { IfOk result (λ _. self.new.kinds ≡ self.old.kinds ++ no_kind ∷ []) }
        ensures atoms { self.new.atoms ≡ self.old.atoms }
        ensures unchanged { OnErr result (self.new ≡ self.old) }
        ensures goes { (trail : TrailState) → Goes self.old trail → Goes self.new trail }
    {
        let _ = alloc;
        self.push(lits, FIRM)
    }

    /// As `add`, and the clause is loose: it goes when the book settles.
    pub fn add_loose(&mut self, alloc: Global, lits: &[u32]) -> Result<u32, NoMemory>
        requires { IsClause self.old.atoms lits.now }
        ensures number { IfOk result (λ number. number ≡ length self.old.clauses) }
        ensures added { IfOk result (λ _. self.new.clauses ≡ self.old.clauses ++ lits.now ∷ []) }
        ensures kinds { IfOk result (λ _. self.new.kinds
            ≡ self.old.kinds ++ (record { learned = false; loose = true; score = 0 }) ∷ []) }
        ensures atoms { self.new.atoms ≡ self.old.atoms }
        ensures unchanged { OnErr result (self.new ≡ self.old) }
        ensures goes { (trail : TrailState) → Goes self.old trail → Goes self.new trail }
    {
        let _ = alloc;
        self.push(lits, LOOSE)
    }

    /// As `add`, and the clause is a learned one, which can be removed. It is loose or firm, and its score is kept.
    pub fn add_learned(
        &mut self,
        alloc: Global,
        lits: &[u32],
        loose: bool,
        score: u16,
    ) -> Result<u32, NoMemory>
        requires { IsClause self.old.atoms lits.now }
        ensures number { IfOk result (λ number. number ≡ length self.old.clauses) }
        ensures added { IfOk result (λ _. self.new.clauses ≡ self.old.clauses ++ lits.now ∷ []) }
        ensures kinds { IfOk result (λ _. self.new.kinds
            ≡ self.old.kinds ++ (record { learned = true; loose = loose; score = score }) ∷ []) }
        ensures atoms { self.new.atoms ≡ self.old.atoms }
        ensures unchanged { OnErr result (self.new ≡ self.old) }
        ensures goes { (trail : TrailState) → Goes self.old trail → Goes self.new trail }
    {
        let _ = alloc;
        let kind = Kind {
            learned: true,
            loose,
            score,
        };
        self.push(lits, kind)
    }

    /// Appends a clause of this kind.
    fn push(&mut self, lits: &[u32], kind: Kind) -> Result<u32, NoMemory>
        requires { IsClause self.old.atoms lits.now }
        ensures number { IfOk result (λ number. number ≡ length self.old.clauses) }
        ensures added { IfOk result (λ _. self.new.clauses ≡ self.old.clauses ++ lits.now ∷ []) }
        ensures kinds { IfOk result (λ _. self.new.kinds ≡ self.old.kinds ++ kind ∷ []) }
        ensures atoms { self.new.atoms ≡ self.old.atoms }
        ensures unchanged { OnErr result (self.new ≡ self.old) }
        ensures goes { (trail : TrailState) → Goes self.old trail → Goes self.new trail }
    {
        let count = self.kinds.len();
        self.kinds.push(kind)?;
        let origin = 2 * self.watches.atoms;
        match self.watches.records.push(lits, origin) {
            Ok(number) => {
                self.firm += u32::from(self.firm == number && !kind.loose);
                Ok(number)
            }
            Err(fault) => {
                self.kinds.truncate(count);
                Err(fault)
            }
        }
    }

    /// Removes the loose clauses. The firm ones stay in order, and are numbered from 0.
    ///
    /// It goes over the clauses behind those that `firm` counts, and for each of these that is watched over the lists of its two
    /// watches down to it; the newest stand at the front. The clauses that `firm` counts cost nothing.
    pub fn settle(&mut self, trail: &Trail)
        requires goes { Goes self.old trail.now }
        requires empty { trail.now.steps ≡ [] }
        ensures clauses { self.new.clauses ≡ kept (map is_firm self.old.kinds) self.old.clauses }
        ensures kinds { self.new.kinds ≡ kept (map is_firm self.old.kinds) self.old.kinds }
        ensures atoms { self.new.atoms ≡ self.old.atoms }
        ensures goes { Goes self.new trail.now }
    {
        let _ = trail;
        let watched = self.watches.watched;
        unwatch_from(&mut self.watches, self.firm);
        number_firm(&mut self.watches, self.kinds.as_slice(), self.firm);
        compact(&mut self.watches, &mut self.kinds, self.firm, watched);
        self.firm = self.watches.records.len();
    }

    /// Removes the learned clauses that aren't marked to stay and are no reason of a placed literal. The others stay in
    /// order, and are numbered from 0, also in the trail. Afterwards the marks tell which clauses stayed. It goes over all
    /// clauses.
    pub fn remove(&mut self, trail: &mut Trail, stays: &mut [bool])
        requires goes { Goes self.old trail.old }
        requires marks { length stays.old ≡ length self.old.clauses }
        ensures as_many { length stays.new ≡ length stays.old }
        ensures only { (clause : ℕ) → clause < length self.old.clauses → mark_of stays.new clause ≡ false
            → (mark_of stays.old clause ≡ false) × ((kind_at self.old.kinds clause).learned ≡ true)
            × ¬ IsReason trail.old.steps clause }
        ensures all { (clause : ℕ) → clause < length self.old.clauses → mark_of stays.old clause ≡ false
            → (kind_at self.old.kinds clause).learned ≡ true → ¬ IsReason trail.old.steps clause
            → mark_of stays.new clause ≡ false }
        ensures clauses { self.new.clauses ≡ kept stays.new self.old.clauses }
        ensures kinds { self.new.kinds ≡ kept stays.new self.old.kinds }
        ensures atoms { self.new.atoms ≡ self.old.atoms }
        ensures trail { trail.new ≡ record trail.old { steps = map (renumbered stays.new) trail.old.steps } }
        ensures goes { Goes self.new trail.new }
    {
        keep_added(stays, self.kinds.as_slice());
        trail.mark_reasons(stays);
        let watched = self.watches.watched;
        self.watches.unlink_all();
        number_clauses(&mut self.watches, stays);
        trail.renumber(&self.watches.records);
        let firm = count_kept(&self.watches.records, 0, self.firm);
        compact(&mut self.watches, &mut self.kinds, 0, watched);
        self.firm = firm;
    }

    /// Shows that no clause has the number that stands for none.
    pub(crate) fn show_numbers(&self)
        ensures { length self.now.clauses ≤ end }
    {
        let _ = self.watches.records.len();
    }

    /// How many clauses there are.
    pub fn len(&self) -> u32
        ensures { result ≡ length self.now.clauses }
    {
        self.watches.records.len()
    }

    /// How many clauses from the first on are known to be firm: these stay as they are when the book settles.
    pub fn firm(&self) -> u32
        ensures within { result ≤ length self.now.clauses }
        ensures firm { AreFirmBelow self.now.kinds result }
    {
        self.firm
    }

    /// The literals of the clause, in some order.
    pub fn lits(&self, clause: u32) -> &[u32]
        requires { clause < length self.now.clauses }
        ensures value { result.now ≡ clause_at self.now.clauses clause }
        ensures clause { IsClause self.now.atoms result.now }
    {
        self.watches.records.literals(clause)
    }

    /// What is known of the clause besides its literals.
    pub fn kind(&self, clause: u32) -> Kind
        requires { clause < length self.now.clauses }
        ensures value { result ≡ kind_at self.now.kinds clause }
        ensures as_many { length self.now.kinds ≡ length self.now.clauses }
    {
        self.kinds[clause as usize]
    }
}
