//! The two watched literals of each clause.
//!
//! Each literal has a list of the clauses that watch it. The head lies in a vector, and the link to
//! the next clause lies in the record of the clause before it.

ghost use Rattle.std.specs.Prelude.{◌≡◌, ◌≢◌, ℕ, ◌+◌, ◌-◌, ◌*◌, ◌<◌, ◌≤◌, ◌^◌, ◌⊎◌, List, [], length, slice_index, slice_index_or, slice_set, OnErr, IfOk};
ghost use Rattle.asp_clauses.specs.Literal.{most_atoms};
ghost use Rattle.asp_clauses.specs.Watches.{AreWatches, IsRecord, IsListed, IsStore, side_of, link_of, WatchingBelow, Watching};
ghost use Rattle.asp_clauses.specs.Records.{row_at, end};
ghost use Rattle.asp_clauses.specs.Visits.{IsAt, MovesWatch, Links, Unlinks, WatchesOneMore, IsUnlinked, moved, other_watch};

use crate::NoMemory;
use crate::records::{END, LITERALS, Records};
use std::alloc::Global;

/// Clauses, and which of them are watched.
#[derive(Drop)]
pub struct Watches {
    /// How many atoms the codes range over.
    pub atoms: u32,
    /// The clauses.
    pub records: Records,
    /// The first clause that watches the literal, for each code and for the origin.
    pub heads: Vec<u32>,
    /// How many clauses are watched. The later ones are still to be examined.
    pub watched: u32,
}

impl Watches {
    /// No clauses, over the atoms below `atoms`.
    pub fn new(alloc: Global, atoms: u32) -> Result<Self, NoMemory>
        requires { atoms ≤ most_atoms }
        ensures empty { IfOk result (λ watches. watches.records ≡ []) }
        ensures atoms { IfOk result (λ watches. watches.atoms ≡ atoms) }
        ensures watched { IfOk result (λ watches. watches.watched ≡ 0) }
        ensures sound { IfOk result AreWatches }
    {
        Ok(Watches {
            atoms,
            records: Records::new(alloc)?,
            heads: vec![in alloc; END; 2 * atoms as usize + 1]?,
            watched: 0,
        })
    }

    /// Which of the clause's two watches the literal is.
    pub fn side(&self, clause: u32, literal: u32) -> usize
        requires store { IsStore self.now }
        requires clause { clause < length self.now.records }
        ensures { result ≡ side_of (row_at self.now.records clause) literal }
    {
        if self.records.cell(clause, LITERALS) == literal {
            0
        } else {
            1
        }
    }

    /// Puts the clause at the front of the list of one of its watches.
    fn link(&mut self, clause: u32, side: usize)
        requires store { IsStore self.old }
        requires clause { clause < length self.old.records }
        requires side { side < 2 }
        ensures { Links self.old self.new clause side }
    {
        let literal = self.records.other(clause, 1 - side) as usize;
        self.records.set_link(clause, side, self.heads[literal]);
        self.heads[literal] = clause;
    }

    /// Empties all lists, so that no clause is watched.
    pub fn unlink_all(&mut self)
        requires { IsStore self.old }
        ensures watches { AreWatches self.new }
        ensures unlinked { IsUnlinked self.old self.new }
        ensures none { self.new.watched ≡ 0 }
    {
        self.heads.fill(END);
        self.watched = 0;
    }

    /// Takes the clause out of the list of the literal, where it comes after `previous`.
    fn unlink(&mut self, previous: u32, clause: u32, literal: u32)
        requires store { IsStore self.old }
        requires clause { clause < length self.old.records }
        requires previous { previous < length self.old.records ⊎ (previous ≡ end) }
        requires code { literal ≤ 2 * self.old.atoms }
        ensures { Unlinks self.old self.new previous clause literal }
    {
        let side = self.side(clause, literal);
        let next = self.records.link(clause, side);
        if previous == END {
            self.heads[literal as usize] = next;
        } else {
            let side_before = self.side(previous, literal);
            self.records.set_link(previous, side_before, next);
        }
    }

    /// Has the next clause watched, which stands in no list so far.
    pub fn watch(&mut self)
        requires watches { AreWatches self.old }
        requires left { self.old.watched < length self.old.records }
        requires size { 0 < slice_index (row_at self.old.records self.old.watched) 0 }
        ensures watches { AreWatches self.new }
        ensures one_more { WatchesOneMore self.old self.new }
    {
        let clause = self.watched;
        self.link(clause, 0);
        self.link(clause, 1);
        self.watched += 1;
    }

    /// The clause before this one in the list of a literal that it watches; none, as `END`, where it is the first.
    fn before(&self, clause: u32, literal: u32) -> u32
        requires watches { AreWatches self.now }
        requires code { literal ≤ 2 * self.now.atoms }
        requires clause { WatchingBelow self.now.records self.now.watched literal clause }
        ensures within { result < length self.now.records ⊎ (result ≡ end) }
        ensures before { (lists : ℕ → List ℕ) → IsListed self.now lists → (k : ℕ) × IsAt lists literal k result clause }
    {
        let mut previous = END;
        let mut other = self.heads[literal as usize];
        'walk: for _turn in 0..self.records.len() {
            if other == clause {
                return previous;
            }
            previous = other;
            let side = self.side(other, literal);
            other = self.records.link(other, side);
        }
        previous
    }

    /// Has the last of the watched clauses watched no more.
    pub fn unwatch(&mut self)
        requires watches { AreWatches self.old }
        requires some { 0 < self.old.watched }
        ensures watches { AreWatches self.new }
        ensures one_less { WatchesOneMore self.new self.old }
    {
        let clause = self.watched - 1;
        let first = self.records.cell(clause, LITERALS);
        let second = self.records.cell(clause, LITERALS + 1);
        let before_first = self.before(clause, first);
        let before_second = self.before(clause, second);
        self.unlink(before_first, clause, first);
        self.unlink(before_second, clause, second);
        self.watched = clause;
    }

    /// Has the clause watch the literal at this index in place of one that became false.
    pub fn move_watch(&mut self, previous: u32, clause: u32, falsified: u32, index: u32)
        requires watches { AreWatches self.old }
        requires clause { WatchingBelow self.old.records self.old.watched falsified clause }
        requires code { falsified ≤ 2 * self.old.atoms }
        requires previous { previous < length self.old.records ⊎ (previous ≡ end) }
        requires unwatched { 2 ≤ index }
        requires index { index < slice_index (row_at self.old.records clause) 0 }
        ensures store { IsStore self.new }
        ensures clause { MovesWatch self.old self.new clause falsified index }
        ensures listed { (lists : ℕ → List ℕ) (k : ℕ) → IsListed self.old lists → IsAt lists falsified k previous clause
            → IsListed self.new (moved lists clause falsified k (slice_index (row_at self.old.records clause) (3 + index))) }
    {
        let side = self.side(clause, falsified);
        self.unlink(previous, clause, falsified);
        self.records.exchange(clause, side, index);
        self.link(clause, side);
    }
}
