//! The records of clauses. What a visit reads of one lies apart from its other literals, so that most visits read from
//! one place.

ghost use Rattle.std.specs.Prelude.{◌≡◌, ◌+◌, ◌-◌, ◌*◌, ◌<◌, ◌≤◌, ◌^◌, [], ◌∷◌, ◌++◌, length, map, IfOk, OnErr, slice_index, slice_index_or, slice_set, slice_range, swap};
ghost use Rattle.asp_clauses.specs.Records.{row_at, record_of, literals_of, end, nodes_for, tops_of, has_number};
ghost use Rattle.asp_clauses.specs.Kept.{kept, is_kept, from_on};

use crate::NoMemory;
use crate::rows::{FIRST, Rows};
use std::alloc::Global;
use std::marker::Model;

/// No clause: the end of a list of watching clauses.
pub const END: u32 = u32::MAX;

/// Where the links lie in a record, after the number of literals.
pub const LINKS: usize = 1;

/// Where the literals lie in a record, after the links.
pub const LITERALS: usize = 3;

/// What a visit reads of a clause that watches a literal.
#[derive(Clone, Copy)]
pub struct Node {
    /// The clause after this one in the list of that literal; or, where that is the first literal of the row and clauses are
    /// removed, the clause's new number.
    pub next: u32,
    /// The other literal that the clause watches. Where it is true, nothing else is read of the clause.
    pub other: u32,
}

/// A record is the number of literals, the links of its two watches, and the literals, filled up to two by the origin.
#[derive(Drop)]
pub struct Records {
    rows: Rows,
    // Two of each clause, one beside the other: of its first and of its second watch.
    nodes: Vec<Node>,
}

impl Model for Records {
    ghost use Rattle.std.specs.Prelude.{List, ℕ};
    ghost use Rattle.asp_clauses.specs.Records.{records_of, tops_of, AreNodes};

    ghost Value = { List (List ℕ) };

    ghost view = { λ r. records_of (tops_of r.nodes.items) r.rows };

    ghost invariant = { λ r. AreNodes r.nodes.items r.rows };
}

impl Records {
    /// No records. `NoMemory`: memory was refused.
    pub fn new(alloc: Global) -> Result<Self, NoMemory>
        ensures { IfOk result (λ records. records ≡ []) }
    {
        Ok(Records {
            rows: Rows::new(alloc)?,
            nodes: Vec::new(alloc),
        })
    }

    /// How many records there are.
    pub fn len(&self) -> u32
        ensures value { result ≡ length self.now }
        ensures numbers { result < 2 ^ 32 }
    {
        self.rows.len()
    }

    /// A word of a clause's record.
    pub fn cell(&self, clause: u32, index: usize) -> u32
        requires clause { clause < length self.now }
        requires index { index < length (row_at self.now clause) }
        ensures { result ≡ slice_index (row_at self.now clause) index }
    {
        match index {
            0 => self.rows.cell(clause, 0),
            1 => self.link(clause, 0),
            2 => self.link(clause, 1),
            3 => self.other(clause, 1),
            4 => self.other(clause, 0),
            _ => self.rows.cell(clause, index - 2),
        }
    }

    /// The link of one of the clause's watches.
    pub fn link(&self, clause: u32, side: usize) -> u32
        requires clause { clause < length self.now }
        requires side { side < 2 }
        ensures { result ≡ slice_index (row_at self.now clause) (1 + side) }
    {
        let node = self.nodes[2 * clause as usize + side];
        node.next
    }

    /// The literal that the clause watches besides that of this side.
    pub fn other(&self, clause: u32, side: usize) -> u32
        requires clause { clause < length self.now }
        requires side { side < 2 }
        ensures { result ≡ slice_index (row_at self.now clause) (4 - side) }
    {
        let node = self.nodes[2 * clause as usize + side];
        node.other
    }

    /// Changes a link in a clause's record.
    pub fn set_link(&mut self, clause: u32, side: usize, value: u32)
        requires clause { clause < length self.old }
        requires side { side < 2 }
        ensures { self.new ≡ slice_set self.old clause (slice_set (row_at self.old clause) (1 + side) value) }
    {
        let node = self.nodes[2 * clause as usize + side];
        self.nodes[2 * clause as usize + side] = Node {
            next: value,
            other: node.other,
        };
    }

    /// Exchanges two literals of a clause.
    pub fn swap(&mut self, clause: u32, i: usize, j: usize)
        requires clause { clause < length self.old }
        requires literals { (3 ≤ i) × (3 ≤ j) }
        requires first { i < length (row_at self.old clause) }
        requires second { j < length (row_at self.old clause) }
        ensures { self.new ≡ slice_set self.old clause (swap (row_at self.old clause) i j) }
    {
        self.rows.swap(clause, i - 2, j - 2);
        let first = self.rows.cell(clause, FIRST);
        let second = self.rows.cell(clause, FIRST + 1);
        let first_node = self.nodes[2 * clause as usize];
        let second_node = self.nodes[2 * clause as usize + 1];
        self.nodes[2 * clause as usize] = Node {
            next: first_node.next,
            other: second,
        };
        self.nodes[2 * clause as usize + 1] = Node {
            next: second_node.next,
            other: first,
        };
    }

    /// Exchanges one of the two watched literals with one that isn't watched.
    pub fn exchange(&mut self, clause: u32, side: usize, index: u32)
        requires clause { clause < length self.old }
        requires side { side < 2 }
        requires unwatched { 2 ≤ index }
        requires index { 3 + index < length (row_at self.old clause) }
        ensures { self.new ≡ slice_set self.old clause (swap (row_at self.old clause) (3 + side) (3 + index)) }
    {
        let literal = self.rows.cell(clause, FIRST + index as usize);
        self.rows.swap(clause, FIRST + side, FIRST + index as usize);
        let node = self.nodes[2 * clause as usize + (1 - side)];
        self.nodes[2 * clause as usize + (1 - side)] = Node {
            next: node.next,
            other: literal,
        };
    }

    /// The literals of a clause.
    pub fn literals(&self, clause: u32) -> &[u32]
        requires clause { clause < length self.now }
        requires size { LITERALS + slice_index (row_at self.now clause) 0 ≤ length (row_at self.now clause) }
        ensures { result.now ≡ literals_of (row_at self.now clause) }
    {
        self.rows.literals(clause)
    }

    /// Removes the records without a number, which stands in place of the first link, from the record `from` on. The others
    /// stay in order.
    pub fn compact(&mut self, from: u32)
        requires { from ≤ length self.old }
        ensures { self.new ≡ kept (from_on from (map is_kept self.old)) self.old }
    {
        self.rows.compact(self.nodes.as_slice(), from);
        keep_nodes(&mut self.nodes, from as usize);
    }

    /// Appends a record and answers its number.
    pub fn push(&mut self, literals: &[u32], origin: u32) -> Result<u32, NoMemory>
        ensures ok { IfOk result (λ number. (number ≡ length self.old)
            × (self.new ≡ self.old ++ record_of origin literals.now ∷ [])) }
        ensures numbers { IfOk result (λ number. number < end) }
        ensures err { OnErr result (self.new ≡ self.old) }
    {
        let count = self.nodes.len();
        self.nodes.extend_from_slice(&new_nodes(literals, origin))?;
        match self.rows.push(literals, origin) {
            Ok(number) => Ok(number),
            Err(fault) => {
                self.nodes.truncate(count);
                Err(fault)
            }
        }
    }
}

/// The nodes of a clause that stands in no list.
fn new_nodes(literals: &[u32], origin: u32) -> [Node; 2]
    ensures { result ≡ nodes_for origin literals.now }
{
    let first = if literals.is_empty() {
        origin
    } else {
        literals[0]
    };
    let second = if literals.len() < 2 {
        origin
    } else {
        literals[1]
    };
    [
        Node {
            next: END,
            other: second,
        },
        Node {
            next: END,
            other: first,
        },
    ]
}

/// Removes the nodes of the clauses without a number, from the clause `from` on.
fn keep_nodes(nodes: &mut Vec<Node>, from: usize)
    requires even { length nodes.old.items ≡ 2 * length (tops_of nodes.old.items) }
    requires from { from ≤ length (tops_of nodes.old.items) }
    ensures even { length nodes.new.items ≡ 2 * length (tops_of nodes.new.items) }
    ensures kept { tops_of nodes.new.items ≡ kept (from_on from (map has_number (tops_of nodes.old.items))) (tops_of nodes.old.items) }
{
    let mut count = from;
    for clause in from..nodes.len() / 2 {
        let first = nodes[2 * clause];
        let second = nodes[2 * clause + 1];
        if first.next != END {
            nodes[2 * count] = first;
            nodes[2 * count + 1] = second;
            count += 1;
        }
    }
    nodes.truncate(2 * count);
}
