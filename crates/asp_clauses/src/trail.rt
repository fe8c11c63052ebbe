//! The trail: literals in the order in which they were placed.

ghost use Rattle.std.specs.Prelude.{◌≡◌, ◌≢◌, ◌↔◌, ℕ, ◌+◌, ◌-◌, ◌*◌, ◌/◌, ◌^◌, ◌<◌, ◌≤◌, [], ◌∷◌, ◌++◌, length, map, take, Some, None, true, false, IfOk, OnOk, OnErr, IsErr, IsTrue, slice_index_or};
ghost use Rattle.asp_clauses.specs.Trail.{IsValue, IsUnassigned, IsPlaced, StandsAt, literal_at, step_at, level_at, decisions, number, Implies, clause_at, back_to, no_step, mark_at};
ghost use Rattle.asp_clauses.specs.Book.{BookState, Goes, IsGuarded, visit_at};
ghost use Rattle.asp_clauses.specs.declared.trail.Truth.TheVariants.{Unassigned};
ghost use Rattle.asp_clauses.specs.Tables.{told};
ghost use Rattle.asp_clauses.specs.Kept.{IsReason, MarksReasons, relabelled, number_in};
ghost use Rattle.asp_clauses.specs.Literal.{negated, most_atoms};
ghost use Rattle.asp_clauses.specs.Records.{AreLong, end};
ghost use Rattle.asp_clauses.specs.Moves.{Places, Lowers, NextVisit, placed, gone_back, IsCleared, IsOutside, lowered, IsOpen};

use crate::NoMemory;
use crate::book::Book;
use crate::literal::negation;
use crate::records::{LINKS, Records};
use crate::steps::Steps;
use std::alloc::Global;
use std::marker::Model;
use thiserror::Error;

/// A placed literal.
#[derive(Clone, Copy)]
pub struct Step {
    /// The literal's code.
    pub literal: u32,
    /// The number of the clause that implies it; none where it is a decision.
    pub reason: Option<u32>,
}

/// What is kept of a decision.
#[derive(Clone, Copy)]
pub struct Mark {
    /// The place of its literal.
    pub start: u32,
    /// How many visits propagation had done when it was placed.
    pub head: u32,
}

/// What a literal's value is: a byte for each literal.
#[derive(Clone, Copy)]
pub enum Truth {
    /// Its atom is unassigned.
    Unassigned,
    /// It is true.
    Holds,
    /// It is false.
    Fails,
}

impl Truth {
    /// Whether the literal is true; none where its atom is unassigned.
    fn told(self) -> Option<bool>
        ensures { result ≡ told self }
    {
        match self {
            Truth::Unassigned => None,
            Truth::Holds => Some(true),
            Truth::Fails => Some(false),
        }
    }
}

/// As many literals were placed as the budget allows.
#[derive(Debug, Clone, Copy, PartialEq, Eq, Error)]
#[error("as many literals were placed as the budget allows")]
pub struct Spent;

/// The placed literals, each a decision or implied by a clause. A trail counts its placements, also
/// those that it went back on, and stops where the count equals the budget.
#[derive(Drop)]
pub struct Trail {
    atoms: u32,
    budget: u64,
    count: u64,
    // The first `len` are the placed literals.
    steps: Steps,
    len: u32,
    // For each code whether it is true; the origin is false.
    values: Vec<Truth>,
    // For each assigned atom, one more than the place of its literal; 0 for the origin.
    positions: Vec<u32>,
    levels: Vec<u32>,
    // The first `decisions` are those of the decisions in the trail.
    marks: Vec<Mark>,
    decisions: u32,
    // How many visits propagation has done: of the origin, and of the literals that became false.
    head: u32,
}

impl Model for Trail {
    ghost use Rattle.asp_clauses.specs.Trail.{TrailState};

    ghost Value = { TrailState };

    ghost use Rattle.asp_clauses.specs.TrailFields.{state_of, IsSound};

    ghost view = { state_of };

    ghost invariant = { IsSound };
}

impl Trail {
    /// An empty trail over the atoms below `atoms`, with all the memory that it will need. `NoMemory`: it was refused.
    pub fn new(alloc: Global, atoms: u32, budget: u64) -> Result<Trail, NoMemory>
        requires { atoms ≤ most_atoms }
        ensures empty { IfOk result (λ trail. trail.steps ≡ []) }
        ensures count { IfOk result (λ trail. trail.count ≡ 0) }
        ensures atoms { IfOk result (λ trail. trail.atoms ≡ atoms) }
        ensures budget { IfOk result (λ trail. trail.budget ≡ budget) }
        ensures goes { IfOk result (λ trail. (book : BookState) → book.atoms ≡ atoms → Goes book trail) }
    {
        let codes = 2 * atoms as usize;
        let mut values = vec![in alloc; Truth::Unassigned; codes + 1]?;
        values[codes] = Truth::Fails;
        let unmarked = Mark { start: 0, head: 0 };
        Ok(Trail {
            atoms,
            budget,
            count: 0,
            steps: Steps::new(alloc, atoms)?,
            len: 0,
            values,
            positions: vec![in alloc; 0; atoms as usize + 1]?,
            levels: vec![in alloc; 0; atoms as usize]?,
            marks: vec![in alloc; unmarked; atoms as usize]?,
            decisions: 0,
            head: 0,
        })
    }

    /// Places the literal as a decision. `Spent`: the count equals the budget, and nothing was placed.
    pub fn decide(&mut self, lit: u32) -> Result<(), Spent>
        requires code { lit < 2 * self.old.atoms }
        requires unassigned { IsUnassigned self.old.steps lit }
        ensures spent { IsErr result ↔ (self.old.count ≡ self.old.budget) }
        ensures placed { OnOk result (Places self.old self.new self.old.steps (record { literal = lit; reason = None })) }
        ensures unchanged { OnErr result (self.new ≡ self.old) }
        ensures goes { (book : BookState) → Goes book self.old → Goes book self.new }
    {
        if self.is_spent() {
            return Err(Spent);
        }
        self.place(Step {
            literal: lit,
            reason: None,
        });
        Ok(())
    }

    /// Places the literal, which the clause of the book implies. `Spent`: the count equals the budget, and nothing was
    /// placed.
    pub fn imply(&mut self, book: &Book, lit: u32, clause: u32) -> Result<(), Spent>
        requires goes { Goes book.now self.old }
        requires code { lit < 2 * self.old.atoms }
        requires unassigned { IsUnassigned self.old.steps lit }
        requires clause { clause < length book.now.clauses }
        requires implied { Implies self.old.steps (clause_at book.now.clauses clause) lit }
        ensures spent { IsErr result ↔ (self.old.count ≡ self.old.budget) }
        ensures placed { OnOk result
            (Places self.old self.new self.old.steps (record { literal = lit; reason = Some clause })) }
        ensures unchanged { OnErr result (self.new ≡ self.old) }
        ensures goes { Goes book.now self.new }
    {
        book.show_numbers();
        if self.is_spent() {
            return Err(Spent);
        }
        self.place(Step {
            literal: lit,
            reason: Some(clause),
        });
        Ok(())
    }

    /// Goes back to the first `level` decisions, and places the literal, which the clause of the book
    /// then implies. `Spent`: the count equals the budget, and the trail is as it was.
    pub fn jump(&mut self, book: &Book, level: u32, lit: u32, clause: u32) -> Result<(), Spent>
        requires goes { Goes book.now self.old }
        requires level { level < decisions self.old.steps }
        requires code { lit < 2 * self.old.atoms }
        requires unassigned { IsUnassigned (back_to level self.old.steps) lit }
        requires clause { clause < length book.now.clauses }
        requires implied { Implies (back_to level self.old.steps) (clause_at book.now.clauses clause) lit }
        ensures spent { IsErr result ↔ (self.old.count ≡ self.old.budget) }
        ensures placed { OnOk result
            (Places self.old self.new (back_to level self.old.steps) (record { literal = lit; reason = Some clause })) }
        ensures unchanged { OnErr result (self.new ≡ self.old) }
        ensures goes { Goes book.now self.new }
    {
        book.show_numbers();
        if self.is_spent() {
            return Err(Spent);
        }
        self.go_back(level);
        self.place(Step {
            literal: lit,
            reason: Some(clause),
        });
        Ok(())
    }

    /// Takes all literals back, and counts anew.
    pub fn reset(&mut self)
        ensures empty { self.new.steps ≡ [] }
        ensures count { self.new.count ≡ 0 }
        ensures atoms { self.new.atoms ≡ self.old.atoms }
        ensures budget { self.new.budget ≡ self.old.budget }
        ensures goes { (book : BookState) → book.atoms ≡ self.old.atoms → Goes book self.new }
    {
        clear_values(&mut self.values, &self.steps, 0, self.len);
        self.len = 0;
        self.decisions = 0;
        self.head = 0;
        self.count = 0;
    }

    /// How many literals were placed since the trail was made or reset.
    pub fn count(&self) -> u64
        ensures { result ≡ self.now.count }
    {
        self.count
    }

    /// Whether the literal is true; none where its atom is unassigned.
    pub fn value(&self, lit: u32) -> Option<bool>
        requires { lit < 2 * self.now.atoms }
        ensures { IsValue self.now.steps lit result }
    {
        self.values[lit as usize].told()
    }

    /// How many literals are placed.
    pub fn len(&self) -> u32
        ensures value { result ≡ length self.now.steps }
        ensures most { result ≤ self.now.atoms }
    {
        self.len
    }

    /// Whether no literal is placed.
    pub fn is_empty(&self) -> bool
        ensures { IsTrue result ↔ (self.now.steps ≡ []) }
    {
        self.len == 0
    }

    /// How many of the placed literals are decisions.
    pub fn decisions(&self) -> u32
        ensures { result ≡ decisions self.now.steps }
    {
        self.decisions
    }

    /// The literal at a place, from 0.
    pub fn at(&self, place: u32) -> u32
        requires { place < length self.now.steps }
        ensures literal { result ≡ literal_at self.now.steps place }
        ensures code { result < 2 * self.now.atoms }
    {
        self.steps.literal(place)
    }

    /// How many decisions are placed up to and with the atom's literal.
    pub fn level(&self, atom: u32) -> u32
        requires { (place : ℕ) × StandsAt self.now.steps atom place }
        ensures { (place : ℕ) → StandsAt self.now.steps atom place → result ≡ level_at self.now.steps place }
    {
        self.levels[atom as usize]
    }

    /// The clause by which the atom's literal is implied; none where it is a decision.
    pub fn reason(&self, atom: u32) -> Option<u32>
        requires { (place : ℕ) × StandsAt self.now.steps atom place }
        ensures { (place : ℕ) → StandsAt self.now.steps atom place → result ≡ (step_at self.now.steps place).reason }
    {
        self.steps.get(self.positions[atom as usize] - 1).reason
    }
}

/// What propagation needs besides. The origin counts as a literal that is false from the start.
impl Trail {
    /// Whether the budget is used up.
    pub(crate) fn is_spent(&self) -> bool
        ensures spent { result ≡ true → self.now.count ≡ self.now.budget }
        ensures room { result ≡ false → self.now.count < self.now.budget }
    {
        self.count == self.budget
    }

    /// Whether the literal is true.
    pub(crate) fn is_true(&self, code: u32) -> bool
        requires { code ≤ 2 * self.now.atoms }
        ensures holds { result ≡ true → IsPlaced self.now.steps code }
        ensures other { result ≡ false → IsOpen self.now code }
    {
        match self.values[code as usize] {
            Truth::Holds => true,
            Truth::Unassigned => false,
            Truth::Fails => false,
        }
    }

    /// Whether the literal is false.
    pub(crate) fn is_false(&self, code: u32) -> bool
        requires { code ≤ 2 * self.now.atoms }
        ensures fails { result ≡ true → code < 2 * self.now.atoms → IsPlaced self.now.steps (negated code) }
        ensures other { result ≡ false → code < 2 * self.now.atoms }
        ensures stands { result ≡ false → IsPlaced self.now.steps (negated code) → ⊥ }
    {
        match self.values[code as usize] {
            Truth::Fails => true,
            Truth::Unassigned => false,
            Truth::Holds => false,
        }
    }

    /// The visit of a literal that is false, or of the origin.
    pub(crate) fn position(&self, code: u32) -> u32
        requires code { code ≤ 2 * self.now.atoms }
        requires fails { code < 2 * self.now.atoms → IsPlaced self.now.steps (negated code) }
        ensures within { result ≤ length self.now.steps }
        ensures visit { visit_at self.now.atoms self.now.steps result ≡ code }
        ensures only { (visit : ℕ) → visit ≤ length self.now.steps
            → visit_at self.now.atoms self.now.steps visit ≡ code → visit ≡ result }
    {
        self.positions[(code / 2) as usize]
    }

    /// What is to be visited next.
    pub(crate) fn next_visit(&self) -> Option<u32>
        ensures none { result ≡ None → self.now.head ≡ length self.now.steps + 1 }
        ensures some { (code : ℕ) → result ≡ Some code → NextVisit self.now code }
    {
        if self.head == 0 {
            return Some(2 * self.atoms);
        }
        if self.head > self.len {
            return None;
        }
        Some(negation(self.steps.literal(self.head - 1)))
    }

    /// Counts the visit as done.
    pub(crate) fn advance(&mut self)
        requires { self.old.head ≤ length self.old.steps }
        ensures { self.new ≡ record self.old { head = self.old.head + 1 } }
    {
        self.head += 1;
    }

    /// Has the visits from this one on done again, wherever a jump goes back to.
    pub(crate) fn lower(&mut self, visit: u32)
        ensures { Lowers self.old self.new visit }
    {
        lower_marks(&mut self.marks, self.decisions, visit);
    }

    /// Places a literal.
    pub(crate) fn place(&mut self, step: Step)
        requires code { step.literal < 2 * self.old.atoms }
        requires unassigned { IsUnassigned self.old.steps step.literal }
        requires unspent { self.old.count < self.old.budget }
        requires number { (clause : ℕ) → step.reason ≡ Some clause → clause < end }
        ensures { self.new ≡ placed self.old step }
    {
        // The mark counts only where the step is a decision.
        self.marks[self.decisions as usize] = Mark {
            start: self.len,
            head: self.head,
        };
        self.decisions += u32::from(step.reason.is_none());
        let atom = (step.literal / 2) as usize;
        self.values[step.literal as usize] = Truth::Holds;
        self.values[negation(step.literal) as usize] = Truth::Fails;
        self.positions[atom] = self.len + 1;
        self.levels[atom] = self.decisions;
        self.steps.set(self.len, step);
        self.len += 1;
        self.count += 1;
    }

    /// Has the clauses stay that are the reason of a placed literal.
    pub(crate) fn mark_reasons(&self, stays: &mut [bool])
        requires { (clause : ℕ) → IsReason self.now.steps clause → clause < length stays.old }
        ensures { MarksReasons self.now.steps (length self.now.steps) stays.old stays.new }
    {
        mark_reasons(stays, &self.steps, self.len);
    }

    /// Gives each reason the number that stands in its record.
    pub(crate) fn renumber(&mut self, records: &Records)
        requires reasons { (clause : ℕ) → IsReason self.old.steps clause → clause < length records.now }
        requires numbers { (clause : ℕ) → IsReason self.old.steps clause → number_in records.now clause < end }
        requires long { AreLong records.now }
        ensures { self.new ≡ record self.old { steps = map (relabelled records.now) self.old.steps } }
    {
        relabel(&mut self.steps, self.len, records);
    }

    /// Takes back all literals from the decision after the first `level` on.
    fn go_back(&mut self, level: u32)
        requires { level < decisions self.old.steps }
        ensures { self.new ≡ gone_back self.old level }
    {
        let mark = self.marks[level as usize];
        clear_values(&mut self.values, &self.steps, mark.start, self.len);
        self.len = mark.start;
        self.decisions = level;
        self.head = mark.head;
    }
}

/// Has the clauses stay that are reasons of the first steps.
fn mark_reasons(stays: &mut [bool], steps: &Steps, len: u32)
    requires within { len ≤ length steps.now }
    requires reasons { (clause : ℕ) → IsReason (take len steps.now) clause → clause < length stays.old }
    ensures { MarksReasons (take len steps.now) len stays.old stays.new }
{
    for place in 0..len {
        if let Some(clause) = steps.get(place).reason {
            stays[clause as usize] = true;
        }
    }
}

/// Gives each reason among the first steps the number that stands in its record.
fn relabel(steps: &mut Steps, len: u32, records: &Records)
    requires within { len ≤ length steps.old }
    requires reasons { (clause : ℕ) → IsReason (take len steps.old) clause → clause < length records.now }
    requires numbers { (clause : ℕ) → IsReason (take len steps.old) clause → number_in records.now clause < end }
    requires long { AreLong records.now }
    ensures as_many { length steps.new ≡ length steps.old }
    ensures steps { take len steps.new ≡ map (relabelled records.now) (take len steps.old) }
{
    for place in 0..len {
        let step = steps.get(place);
        if let Some(clause) = step.reason {
            let renumbered = Step {
                literal: step.literal,
                reason: Some(records.cell(clause, LINKS)),
            };
            steps.set(place, renumbered);
        }
    }
}

/// Unassigns the literals of these steps.
fn clear_values(values: &mut [Truth], steps: &Steps, from: u32, to: u32)
    requires ordered { from ≤ to }
    requires within { to ≤ length steps.now }
    requires codes { (place : ℕ) → place < to → literal_at steps.now place + 1 < length values.old }
    ensures cleared { (place : ℕ) → from ≤ place → place < to → IsCleared values.new (literal_at steps.now place) }
    ensures others { (code : ℕ) → IsOutside steps.now from to code
        → slice_index_or values.new code Unassigned ≡ slice_index_or values.old code Unassigned }
{
    for place in from..to {
        let literal = steps.literal(place);
        values[literal as usize] = Truth::Unassigned;
        values[negation(literal) as usize] = Truth::Unassigned;
    }
}

/// Lowers the heads of the first marks to a visit; these heads never fall from one to the next.
fn lower_marks(marks: &mut [Mark], count: u32, visit: u32)
    requires within { count ≤ length marks.old }
    requires ordered { (i j : ℕ) → i ≤ j → j < count → (mark_at marks.old i).head ≤ (mark_at marks.old j).head }
    ensures { (level : ℕ) → level < count → mark_at marks.new level ≡ lowered visit (mark_at marks.old level) }
{
    let mut level = count as usize;
    while level > 0 && marks[level - 1].head > visit {
        level -= 1;
        marks[level].head = visit;
    }
}
