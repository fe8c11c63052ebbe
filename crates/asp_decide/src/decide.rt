//! Which atom is decided next, and with which phase: the unassigned one of the highest activity, from a heap.
//!
//! Nothing but speed rests on activities and the heap's order, so contracts speak of atoms and phases alone.

ghost use Rattle.std.specs.Prelude.{◌≡◌, ℕ, ◌+◌, ◌*◌, ◌/◌, ◌<◌, ◌≤◌, ◌^◌, ◌⊎◌, true, false, length, None, IsTrue, IfOk, IfSome, OnSome, replicate, slice_index, slice_index_or, slice_set};
ghost use Rattle.asp_clauses.specs.Literal.{most_atoms};
ghost use Rattle.asp_clauses.specs.Trail.{IsPlaced, IsUnassigned};
ghost use Rattle.asp_decide.specs.DecisionHeap.{AreAtoms};
ghost use Rattle.asp_decide.specs.Total.{IsTotal, DeniesFirst};

use asp_clauses::{NoMemory, Trail};
use std::alloc::Global;
use std::marker::Model;

/// Where an activity passes this, all are scaled down.
const CEILING: u64 = 1 << 56;

/// By how many bits activities are scaled down.
const SCALE: u32 = 40;

/// What the first conflict adds to the activities of its atoms.
const FIRST_BUMP: u64 = 1 << 16;

/// The place of an atom that isn't in the heap.
const ABSENT: u32 = u32::MAX;

/// Activities and phases of the atoms, and those that wait for a decision, in a heap by activity.
#[derive(Drop)]
pub struct DecisionHeap {
    // The activity of each atom: the sum of the bumps at its conflicts, of which later ones are higher.
    activities: Vec<u64>,
    // What the next conflict adds to the activities of its atoms.
    bump: u64,
    // The first `waiting` are the atoms that wait, no atom more active than the one above it.
    slots: Vec<u32>,
    waiting: u32,
    // Where each atom stands in the heap.
    places: Vec<u32>,
    // The value that each atom had last.
    phases: Vec<bool>,
}

impl Model for DecisionHeap {
    ghost use Rattle.asp_decide.specs.DecisionHeap.{HeapState, IsHeap};
    ghost use Rattle.std.specs.Prelude.{length};

    ghost Value = { HeapState };

    ghost view = { λ o. record { atoms = length o.activities.items; waiting = o.waiting; phases = o.phases.items } };

    ghost invariant = { λ o. IsHeap o.activities.items o.slots.items o.waiting o.places.items o.phases.items };
}

impl DecisionHeap {
    /// All atoms wait, and each was false last.
    pub fn new(alloc: Global, atoms: u32) -> Result<DecisionHeap, NoMemory>
        requires { atoms ≤ most_atoms }
        ensures atoms { IfOk result (λ heap. heap.atoms ≡ atoms) }
        ensures waiting { IfOk result (λ heap. heap.waiting ≡ atoms) }
        ensures phases { IfOk result (λ heap. heap.phases ≡ replicate atoms false) }
    {
        let mut slots = vec![in alloc; 0; atoms as usize]?;
        let mut places = vec![in alloc; 0; atoms as usize]?;
        number(&mut slots);
        number(&mut places);
        Ok(DecisionHeap {
            activities: vec![in alloc; 0; atoms as usize]?,
            bump: FIRST_BUMP,
            slots,
            waiting: atoms,
            places,
            phases: vec![in alloc; false; atoms as usize]?,
        })
    }

    /// How many atoms there are.
    pub fn atoms(&self) -> u32
        ensures { result ≡ self.now.atoms }
    {
        self.activities.len() as u32
    }

    /// Takes the most active of the atoms that wait.
    pub fn pop(&mut self) -> Option<u32>
        ensures atom { IfSome result (λ atom. atom < self.old.atoms) }
        ensures fewer { OnSome result (self.new.waiting < self.old.waiting) }
        ensures atoms { self.new.atoms ≡ self.old.atoms }
        ensures phases { self.new.phases ≡ self.old.phases }
    {
        if self.waiting == 0 {
            return None;
        }
        let top = self.slots[0];
        self.waiting -= 1;
        let last = self.waiting as usize;
        exchange(&mut self.slots, &mut self.places, 0, last);
        self.places[top as usize] = ABSENT;
        sink(&mut self.slots, &mut self.places, &self.activities, last);
        Some(top)
    }

    /// Lets the atom wait again.
    pub fn insert(&mut self, atom: u32)
        requires { atom < self.old.atoms }
        ensures atoms { self.new.atoms ≡ self.old.atoms }
        ensures phases { self.new.phases ≡ self.old.phases }
    {
        let last = self.waiting as usize;
        if self.places[atom as usize] == ABSENT && last < self.slots.len() {
            self.slots[last] = atom;
            self.places[atom as usize] = self.waiting;
            self.waiting += 1;
            raise(&mut self.slots, &mut self.places, &self.activities, last);
        }
    }

    /// Makes the atom more active.
    pub fn bump(&mut self, atom: u32)
        requires { atom < self.old.atoms }
        ensures atoms { self.new.atoms ≡ self.old.atoms }
        ensures phases { self.new.phases ≡ self.old.phases }
    {
        let activity = self.activities[atom as usize].saturating_add(self.bump);
        self.activities[atom as usize] = activity;
        if activity > CEILING {
            scale_down(&mut self.activities);
            self.bump = (self.bump >> SCALE).max(1);
        }
        let place = self.places[atom as usize];
        if place < self.waiting {
            raise(
                &mut self.slots,
                &mut self.places,
                &self.activities,
                place as usize,
            );
        }
    }

    /// Makes later bumps count more: so all activities decay by a factor of 0.95, as they do in minisat.
    pub fn decay(&mut self)
        ensures atoms { self.new.atoms ≡ self.old.atoms }
        ensures phases { self.new.phases ≡ self.old.phases }
    {
        self.bump = self.bump.saturating_add(self.bump / 19 + 1);
    }

    /// The value that the atom had last.
    pub fn phase(&self, atom: u32) -> bool
        requires { atom < self.now.atoms }
        ensures { result ≡ slice_index_or self.now.phases atom false }
    {
        self.phases[atom as usize]
    }

    /// Keeps the atom's value for its next decision.
    pub fn keep_phase(&mut self, atom: u32, value: bool)
        requires { atom < self.old.atoms }
        ensures atoms { self.new.atoms ≡ self.old.atoms }
        ensures phases { self.new.phases ≡ slice_set self.old.phases atom value }
    {
        self.phases[atom as usize] = value;
    }
}

/// An unassigned literal, or none where each atom has a value. `ordered` asks for the least unassigned atom, false. All
/// atoms below `front` have values; it moves up where the least one without a value is sought.
pub fn choose(heap: &mut DecisionHeap, front: &mut u32, trail: &Trail, ordered: bool) -> Option<u32>
    requires heap { heap.old.atoms ≡ trail.now.atoms }
    requires few { trail.now.atoms ≤ most_atoms }
    requires front { IsTotal front.old trail.now.steps }
    ensures heap { heap.new.atoms ≡ heap.old.atoms }
    ensures phases { heap.new.phases ≡ heap.old.phases }
    ensures front { IsTotal front.new trail.now.steps }
    ensures code { IfSome result (λ literal. literal < 2 * trail.now.atoms) }
    ensures unassigned { IfSome result (IsUnassigned trail.now.steps) }
    ensures first { ordered ≡ true → IfSome result (DeniesFirst trail.now.steps) }
    ensures total { result ≡ None → IsTotal trail.now.atoms trail.now.steps }
{
    if !ordered {
        let active = most_active(heap, trail);
        if active.is_some() {
            return active;
        }
    }
    first_unassigned(heap, front, trail)
}

/// The most active unassigned atom that waits, with the value that it had last.
fn most_active(heap: &mut DecisionHeap, trail: &Trail) -> Option<u32>
    requires heap { heap.old.atoms ≡ trail.now.atoms }
    requires few { trail.now.atoms ≤ most_atoms }
    ensures heap { heap.new.atoms ≡ heap.old.atoms }
    ensures phases { heap.new.phases ≡ heap.old.phases }
    ensures code { IfSome result (λ literal. literal < 2 * trail.now.atoms) }
    ensures unassigned { IfSome result (IsUnassigned trail.now.steps) }
{
    while let Some(atom) = heap.pop() {
        if is_unassigned(trail, atom) {
            let negative = 2 * atom;
            return Some(if heap.phase(atom) {
                negative + 1
            } else {
                negative
            });
        }
    }
    None
}

/// The negation of the least unassigned atom, sought from `front` on.
fn first_unassigned(heap: &DecisionHeap, front: &mut u32, trail: &Trail) -> Option<u32>
    requires heap { heap.now.atoms ≡ trail.now.atoms }
    requires few { trail.now.atoms ≤ most_atoms }
    requires front { IsTotal front.old trail.now.steps }
    ensures front { IsTotal front.new trail.now.steps }
    ensures code { IfSome result (λ literal. literal < 2 * trail.now.atoms) }
    ensures unassigned { IfSome result (IsUnassigned trail.now.steps) }
    ensures first { IfSome result (DeniesFirst trail.now.steps) }
    ensures total { result ≡ None → IsTotal trail.now.atoms trail.now.steps }
{
    while *front < heap.atoms() {
        if is_unassigned(trail, *front) {
            return Some(2 * *front);
        }
        *front += 1;
    }
    None
}

/// Whether the atom has no value.
fn is_unassigned(trail: &Trail, atom: u32) -> bool
    requires atom { atom < trail.now.atoms }
    requires few { trail.now.atoms ≤ most_atoms }
    ensures unassigned { IsTrue result → IsUnassigned trail.now.steps (2 * atom) }
    ensures assigned { result ≡ false → IsPlaced trail.now.steps (2 * atom + 1) ⊎ IsPlaced trail.now.steps (2 * atom) }
{
    match trail.value(2 * atom + 1) {
        Some(_) => false,
        None => true,
    }
}

/// Writes each place's number.
fn number(numbers: &mut [u32])
    requires { length numbers.old ≤ most_atoms }
    ensures { AreAtoms (length numbers.new) numbers.new }
{
    for place in 0..numbers.len() {
        numbers[place] = place as u32;
    }
}

/// Divides all activities.
fn scale_down(activities: &mut [u64]) {
    for activity in activities.iter_mut() {
        *activity >>= SCALE;
    }
}

/// Exchanges two atoms of the heap.
fn exchange(heap: &mut [u32], places: &mut [u32], first: usize, second: usize)
    requires few { length heap.old ≤ most_atoms }
    requires first { first < length heap.old }
    requires second { second < length heap.old }
    requires codes { AreAtoms (length places.old) heap.old }
    ensures { AreAtoms (length places.new) heap.new }
{
    let upper = heap[first];
    let lower = heap[second];
    heap[first] = lower;
    heap[second] = upper;
    places[lower as usize] = first as u32;
    places[upper as usize] = second as u32;
}

/// Moves an atom of the heap up to its place.
fn raise(heap: &mut [u32], places: &mut [u32], activities: &[u64], start: usize)
    requires few { length heap.old ≤ most_atoms }
    requires start { start < length heap.old }
    requires codes { AreAtoms (length places.old) heap.old }
    requires activities { length activities.now ≡ length places.old }
    ensures { AreAtoms (length places.new) heap.new }
{
    let mut at = start;
    while at > 0 {
        let above = (at - 1) / 2;
        if activities[heap[above] as usize] >= activities[heap[at] as usize] {
            return;
        }
        exchange(heap, places, at, above);
        at = above;
    }
}

/// Moves the top of the heap, of which the first `end` atoms wait, down to its place.
fn sink(heap: &mut [u32], places: &mut [u32], activities: &[u64], end: usize)
    requires few { length heap.old ≤ most_atoms }
    requires end { end ≤ length heap.old }
    requires codes { AreAtoms (length places.old) heap.old }
    requires activities { length activities.now ≡ length places.old }
    ensures { AreAtoms (length places.new) heap.new }
{
    let mut at = 0;
    while 2 * at + 1 < end {
        let below = more_active(heap, activities, 2 * at + 1, end);
        if activities[heap[at] as usize] >= activities[heap[below] as usize] {
            return;
        }
        exchange(heap, places, at, below);
        at = below;
    }
}

/// The more active of two neighbours below one atom.
fn more_active(heap: &[u32], activities: &[u64], left: usize, end: usize) -> usize
    requires left { left < end }
    requires end { end ≤ length heap.now }
    requires few { length heap.now ≤ most_atoms }
    requires codes { AreAtoms (length activities.now) heap.now }
    ensures within { result < end }
    ensures below { left ≤ result }
{
    let right = left + 1;
    if right < end && activities[heap[right] as usize] > activities[heap[left] as usize] {
        right
    } else {
        left
    }
}
