//! The steps of a trail, eight bytes each.

ghost use Rattle.std.specs.Prelude.{◌≡◌, ℕ, ◌<◌, ◌≤◌, Some, length, IfOk, slice_set};
ghost use Rattle.asp_clauses.specs.Records.{end};
ghost use Rattle.asp_clauses.specs.Trail.{step_at, literal_at};
ghost use Rattle.asp_clauses.specs.Steps.{reason_of, word_of};

use crate::NoMemory;
use crate::records::END;
use crate::trail::Step;
use std::alloc::Global;
use std::marker::Model;

/// A step in two words.
#[derive(Clone, Copy)]
pub struct Placed {
    /// The literal's code.
    pub literal: u32,
    /// The number of the clause that implies it; the number of no clause where it is a decision.
    pub reason: u32,
}

/// A table of steps.
#[derive(Drop)]
pub struct Steps {
    items: Vec<Placed>,
}

impl Model for Steps {
    ghost use Rattle.std.specs.Prelude.{List, map};
    ghost use Rattle.asp_clauses.specs.declared.trail.Step.{Step};

    ghost Value = { List Step };

    ghost use Rattle.asp_clauses.specs.Steps.{step_of};

    ghost view = { λ s. map step_of s.items.items };
}

impl Steps {
    /// So many steps. `NoMemory`: memory was refused.
    pub fn new(alloc: Global, len: u32) -> Result<Self, NoMemory>
        ensures { IfOk result (λ steps. length steps ≡ len) }
    {
        let unplaced = Placed {
            literal: 0,
            reason: END,
        };
        Ok(Steps {
            items: vec![in alloc; unplaced; len as usize]?,
        })
    }

    /// The step at a place.
    pub fn get(&self, place: u32) -> Step
        requires { place < length self.now }
        ensures { result ≡ step_at self.now place }
    {
        let placed = self.items[place as usize];
        Step {
            literal: placed.literal,
            reason: told_reason(placed.reason),
        }
    }

    /// The literal at a place.
    pub fn literal(&self, place: u32) -> u32
        requires { place < length self.now }
        ensures { result ≡ literal_at self.now place }
    {
        self.items[place as usize].literal
    }

    /// Writes a step.
    pub fn set(&mut self, place: u32, step: Step)
        requires place { place < length self.old }
        requires number { (clause : ℕ) → step.reason ≡ Some clause → clause < end }
        ensures { self.new ≡ slice_set self.old place step }
    {
        self.items[place as usize] = Placed {
            literal: step.literal,
            reason: reason_word(step.reason),
        };
    }
}

/// The reason that a word tells.
fn told_reason(word: u32) -> Option<u32>
    ensures { result ≡ reason_of word }
{
    if word == END { None } else { Some(word) }
}

/// The word that tells a reason.
fn reason_word(reason: Option<u32>) -> u32
    ensures { result ≡ word_of reason }
{
    match reason {
        Some(clause) => clause,
        None => END,
    }
}
