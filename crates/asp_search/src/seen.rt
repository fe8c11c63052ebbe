//! The literals that an analysis has seen: marked one by one, and cleared in the time that marking took.

ghost use Rattle.std.specs.Prelude.{◌≡◌, ◌↔◌, ◌<◌, ◌^◌, [], ◌∷◌, ◌++◌, length, take, slice_index, IsTrue, IfOk, OnOk, OnErr};
ghost use Rattle.std.specs.List.{Contains};
ghost use Rattle.asp_search.specs.Seen.{AreCodes, AreDistinct};

use crate::NoMemory;
use std::alloc::Global;
use std::marker::Model;

/// Marked literals, each once.
#[derive(Drop)]
pub struct Seen {
    // For each code whether it is marked.
    table: Vec<bool>,
    // The marked codes.
    listed: Vec<u32>,
}

impl Model for Seen {
    ghost use Rattle.asp_search.specs.Seen.{SeenSet, IsTable};
    ghost use Rattle.std.specs.Prelude.{length};

    ghost Value = { SeenSet };

    ghost view = { λ m. record { codes = length m.table.items; marked = m.listed.items } };

    ghost invariant = { λ m. IsTable m.table.items m.listed.items };
}

impl Seen {
    /// The empty set, of codes below `codes`. `NoMemory`: memory was refused.
    pub fn new(alloc: Global, codes: u32) -> Result<Seen, NoMemory>
        ensures codes { IfOk result (λ seen. seen.codes ≡ codes) }
        ensures none { IfOk result (λ seen. seen.marked ≡ []) }
    {
        Ok(Seen {
            table: vec![in alloc; false; codes as usize]?,
            listed: Vec::new(alloc),
        })
    }

    /// Whether the literal is marked.
    pub fn contains(&self, literal: u32) -> bool
        requires { literal < self.now.codes }
        ensures { IsTrue result ↔ Contains self.now.marked literal }
    {
        self.table[literal as usize]
    }

    /// Marks the literal. `NoMemory`: memory was refused; the set is as it was.
    pub fn insert(&mut self, literal: u32) -> Result<(), NoMemory>
        requires code { literal < self.old.codes }
        requires fresh { Contains self.old.marked literal → ⊥ }
        ensures codes { self.new.codes ≡ self.old.codes }
        ensures ok { OnOk result (self.new.marked ≡ self.old.marked ++ literal ∷ []) }
        ensures err { OnErr result (self.new ≡ self.old) }
    {
        self.listed.push(literal)?;
        self.table[literal as usize] = true;
        Ok(())
    }

    /// Takes all marks back but the first ones, as many as `count`.
    pub fn truncate(&mut self, count: usize)
        ensures codes { self.new.codes ≡ self.old.codes }
        ensures marked { self.new.marked ≡ take count self.old.marked }
    {
        while self.listed.len() > count {
            match self.listed.pop() {
                Some(literal) => self.table[literal as usize] = false,
                None => unreachable!(),
            }
        }
    }

    /// Empties the set.
    pub fn clear(&mut self)
        ensures codes { self.new.codes ≡ self.old.codes }
        ensures none { self.new.marked ≡ [] }
    {
        self.truncate(0);
    }

    /// How many literals are marked.
    pub fn len(&self) -> usize
        ensures { result ≡ length self.now.marked }
    {
        self.listed.len()
    }

    /// The marked literal at a place, in the order in which they were marked.
    pub fn at(&self, place: usize) -> u32
        requires { place < length self.now.marked }
        ensures { result ≡ slice_index self.now.marked place }
    {
        self.listed[place]
    }

    /// The marked literals, in the order in which they were marked.
    pub fn as_slice(&self) -> &[u32]
        ensures marked { result.now ≡ self.now.marked }
        ensures codes { AreCodes self.now.codes result.now }
        ensures distinct { AreDistinct result.now }
    {
        self.listed.as_slice()
    }
}
