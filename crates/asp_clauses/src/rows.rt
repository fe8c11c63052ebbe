//! The arena: a row of words for each clause, all in one flat vector.

ghost use Rattle.std.specs.Prelude.{◌≡◌, ◌+◌, ◌-◌, ◌*◌, ◌<◌, ◌≤◌, ◌^◌, [], ◌∷◌, ◌++◌, length, map, IfOk, OnErr, slice_index, slice_index_or, slice_set, slice_range, swap};
ghost use Rattle.asp_clauses.specs.Records.{row_at, row_for, clause_of, has_number, tops_of, end};
ghost use Rattle.asp_clauses.specs.Rows.{rows_of, AreRows};
ghost use Rattle.asp_clauses.specs.Kept.{kept, from_on};

use crate::NoMemory;
use crate::records::{END, Node};
use std::alloc::{AllocError, Global};
use std::marker::Model;

/// Where the literals lie in a row, after their number.
pub const FIRST: usize = 1;

/// A row is the number of literals, and the literals, filled up to two by the origin.
#[derive(Drop)]
pub struct Rows {
    words: Vec<u32>,
    // Where each row starts, and where the last one ends.
    starts: Vec<u32>,
}

impl Model for Rows {
    ghost use Rattle.std.specs.Prelude.{List, ℕ};
    ghost use Rattle.asp_clauses.specs.Rows.{rows_of, AreRows};

    ghost Value = { List (List ℕ) };

    ghost view = { λ r. rows_of r.words.items r.starts.items };

    ghost invariant = { λ r. AreRows r.words.items r.starts.items };
}

impl Rows {
    /// No rows. `NoMemory`: memory was refused.
    pub fn new(alloc: Global) -> Result<Self, NoMemory>
        ensures { IfOk result (λ rows. rows ≡ []) }
    {
        let mut starts = Vec::new(alloc);
        starts.push(0)?;
        Ok(Rows {
            words: Vec::new(alloc),
            starts,
        })
    }

    /// How many rows there are.
    pub fn len(&self) -> u32
        ensures value { result ≡ length self.now }
        ensures numbers { result < 2 ^ 32 }
    {
        (self.starts.len() - 1) as u32
    }

    /// A word of a row.
    pub fn cell(&self, clause: u32, index: usize) -> u32
        requires clause { clause < length self.now }
        requires index { index < length (row_at self.now clause) }
        ensures { result ≡ slice_index (row_at self.now clause) index }
    {
        self.words[self.starts[clause as usize] as usize + index]
    }

    /// Changes a word of a row.
    fn set_cell(&mut self, clause: u32, index: usize, value: u32)
        requires clause { clause < length self.old }
        requires index { index < length (row_at self.old clause) }
        ensures { self.new ≡ slice_set self.old clause (slice_set (row_at self.old clause) index value) }
    {
        let start = self.starts[clause as usize] as usize;
        self.words[start + index] = value;
    }

    /// Exchanges two words of a row.
    pub fn swap(&mut self, clause: u32, i: usize, j: usize)
        requires clause { clause < length self.old }
        requires first { i < length (row_at self.old clause) }
        requires second { j < length (row_at self.old clause) }
        ensures { self.new ≡ slice_set self.old clause (swap (row_at self.old clause) i j) }
    {
        let first = self.cell(clause, i);
        let second = self.cell(clause, j);
        self.set_cell(clause, i, second);
        self.set_cell(clause, j, first);
    }

    /// The literals of a clause.
    pub fn literals(&self, clause: u32) -> &[u32]
        requires clause { clause < length self.now }
        requires size { FIRST + slice_index (row_at self.now clause) 0 ≤ length (row_at self.now clause) }
        ensures { result.now ≡ clause_of (row_at self.now clause) }
    {
        let start = self.starts[clause as usize] as usize;
        let size = self.words[start] as usize;
        &self.words[start + FIRST..start + FIRST + size]
    }

    /// Appends a row and answers its number.
    pub fn push(&mut self, literals: &[u32], origin: u32) -> Result<u32, NoMemory>
        ensures ok { IfOk result (λ number. (number ≡ length self.old)
            × (self.new ≡ self.old ++ row_for origin literals.now ∷ [])) }
        ensures numbers { IfOk result (λ number. number < end) }
        ensures err { OnErr result (self.new ≡ self.old) }
    {
        let start = self.words.len();
        let number = self.starts.len() - 1;
        let room = (END as usize).saturating_sub(start + FIRST + 2);
        if literals.len() >= room || number >= END as usize {
            return Err(AllocError);
        }
        let end = start + FIRST + literals.len().max(2);
        let written = write_row(&mut self.words, literals, origin);
        if written.is_ok() && self.starts.push(end as u32).is_ok() {
            return Ok(number as u32);
        }
        self.words.truncate(start);
        Err(AllocError)
    }

    /// Removes the rows of the clauses without a number, from the row `from` on. The others stay in order.
    pub fn compact(&mut self, nodes: &[Node], from: u32)
        requires nodes { length nodes.now ≡ 2 * length self.old }
        requires from { from ≤ length self.old }
        ensures { self.new ≡ kept (from_on from (map has_number (tops_of nodes.now))) self.old }
    {
        compact_rows(&mut self.words, &mut self.starts, nodes, from as usize);
    }
}

/// Removes the rows of the clauses without a number, from the row `from` on.
fn compact_rows(words: &mut Vec<u32>, starts: &mut Vec<u32>, nodes: &[Node], from: usize)
    requires rows { AreRows words.old.items starts.old.items }
    requires nodes { length nodes.now ≡ 2 * length (rows_of words.old.items starts.old.items) }
    requires from { from ≤ length (rows_of words.old.items starts.old.items) }
    ensures rows { AreRows words.new.items starts.new.items }
    ensures kept { rows_of words.new.items starts.new.items
        ≡ kept (from_on from (map has_number (tops_of nodes.now))) (rows_of words.old.items starts.old.items) }
{
    let mut count = from;
    let mut end = starts[from] as usize;
    for row in from..starts.len() - 1 {
        let start = starts[row] as usize;
        let next = starts[row + 1] as usize;
        let node = nodes[2 * row];
        if node.next != END {
            words.copy_within(start..next, end);
            end += next - start;
            count += 1;
            starts[count] = end as u32;
        }
    }
    words.truncate(end);
    starts.truncate(count + 1);
}

/// Appends the words of a row; where memory is refused, a part of them.
fn write_row(words: &mut Vec<u32>, literals: &[u32], origin: u32) -> Result<(), NoMemory>
    requires { length literals.now < 2 ^ 32 }
    ensures ok { IfOk result (λ _. words.new.items ≡ words.old.items ++ row_for origin literals.now) }
    ensures err { slice_range words.new.items 0 (length words.old.items) ≡ words.old.items }
{
    words.push(literals.len() as u32)?;
    words.extend_from_slice(literals)?;
    let filling = [origin, origin];
    words.extend_from_slice(&filling[literals.len().min(2)..])?;
    Ok(())
}
