//! What tells which learned clauses are dropped: how active each clause was, and how many decision levels it has.
//!
//! Nothing but speed rests on activities, so contracts say only what callers read.

ghost use Rattle.std.specs.Prelude.{◌≡◌, ◌+◌, ◌<◌, ◌≤◌, ◌^◌, true, false};
ghost use Rattle.asp_search.specs.ClauseActivity.{IsLater};

use crate::NoMemory;
use asp_clauses::Book;
use std::alloc::Global;
use std::marker::Model;

/// Where an activity passes this, all are scaled down.
const CEILING: u64 = 1 << 56;

/// By how many bits activities are scaled down.
const SCALE: u32 = 40;

/// What the first conflict adds to the activities of its clauses.
const FIRST_BUMP: u64 = 1 << 16;

/// After so many conflicts learned clauses are dropped for the first time.
const FIRST_INTERVAL: u64 = 500;

/// Each interval is longer than the one before by this part of it.
const GROWTH: u64 = 32;

/// The activities of clauses by number, and when learned clauses are dropped next.
#[derive(Drop)]
pub struct ClauseActivity {
    // The sum of the bumps at the clause's conflicts, of which later ones are higher; 0 where it isn't listed.
    activities: Vec<u64>,
    // What the next conflict adds to the activities of its clauses.
    bump: u64,
    // How many conflicts taught a clause in all,
    total: u64,
    // and how many since learned clauses were dropped; they are dropped again after an interval.
    conflicts: u64,
    interval: u64,
}

impl Model for ClauseActivity {
    ghost use Rattle.asp_search.specs.ClauseActivity.{ActivityState};

    ghost Value = { ActivityState };

    ghost view = { λ o. record { total = o.total; interval = o.interval } };
}

impl ClauseActivity {
    /// No clause was active yet.
    pub fn new(alloc: Global) -> ClauseActivity
        ensures { result.total ≡ 0 }
    {
        ClauseActivity {
            activities: Vec::new(alloc),
            bump: FIRST_BUMP,
            total: 0,
            conflicts: 0,
            interval: FIRST_INTERVAL,
        }
    }

    /// Makes the clause more active.
    pub fn bump(&mut self, clause: u32)
        ensures { self.new ≡ self.old }
    {
        let mut passed = false;
        if let Some(activity) = self.activities.get_mut(clause as usize) {
            *activity = activity.saturating_add(self.bump);
            passed = *activity > CEILING;
        }
        if passed {
            self.scale_down();
        }
    }

    /// Divides all activities.
    fn scale_down(&mut self)
        ensures { self.new ≡ self.old }
    {
        for activity in self.activities.iter_mut() {
            *activity >>= SCALE;
        }
        self.bump = (self.bump >> SCALE).max(1);
    }

    /// Lists a new clause as one of the last conflict, and makes later bumps count more: so all activities decay by a
    /// factor of 0.999, as they do in minisat. `NoMemory`: memory was refused; the clause isn't listed.
    pub fn list(&mut self, clause: u32) -> Result<(), NoMemory>
        ensures { IsLater self.old self.new }
    {
        // No clause has a higher number.
        self.activities.truncate(clause as usize);
        self.total = self.total.saturating_add(1);
        self.conflicts = self.conflicts.saturating_add(1);
        for _place in self.activities.len()..clause as usize {
            self.activities.push(0)?;
        }
        self.activities.push(self.bump)?;
        self.bump = self.bump.saturating_add(self.bump / 999 + 1);
        Ok(())
    }

    /// A number that is lower the better the clause is: by its levels first, then by its activity.
    pub fn rank(&self, clause: u32, levels: u16) -> u64 {
        let activity = match self.activities.get(clause as usize) {
            Some(activity) => *activity,
            None => 0,
        };
        // About a millionth of what the next conflict adds: an activity is some thousand bumps at most, so it fits 32 bits.
        let unit = (self.bump >> 20).max(1);
        let inactivity = u32::MAX - (activity / unit).min(u64::from(u32::MAX)) as u32;
        (u64::from(levels) << 32) | u64::from(inactivity)
    }

    /// How many conflicts taught a clause.
    pub fn total(&self) -> u64
        ensures { result ≡ self.now.total }
    {
        self.total
    }

    /// After so many conflicts learned clauses are dropped next.
    pub fn set_interval(&mut self, interval: u64)
        ensures { self.new ≡ record self.old { interval = interval } }
    {
        self.interval = interval;
    }

    /// Whether learned clauses are to be dropped now; if so, the next interval begins.
    pub fn is_due(&mut self) -> bool
        ensures { IsLater self.old self.new }
    {
        if self.conflicts < self.interval {
            return false;
        }
        self.conflicts = 0;
        self.interval = self.interval.saturating_add(self.interval / GROWTH);
        true
    }

    /// Gives the activities of the firm clauses the numbers that these get when the book settles. It goes over the clauses
    /// from the first loose one on, as the book does.
    pub fn keep_firm(&mut self, book: &Book)
        ensures { self.new ≡ self.old }
    {
        let mut next = book.firm() as usize;
        for clause in book.firm()..book.len() {
            let place = clause as usize;
            if place < self.activities.len() && next <= place && !book.kind(clause).loose {
                self.activities[next] = self.activities[place];
                next += 1;
            }
        }
        self.activities.truncate(next);
    }

    /// Gives the activities of the clauses that stayed their new numbers.
    pub fn compact(&mut self, stayed: &[bool])
        ensures { self.new ≡ self.old }
    {
        let mut next = 0;
        for clause in 0..self.activities.len() {
            if let Some(true) = stayed.get(clause) {
                if next <= clause {
                    self.activities[next] = self.activities[clause];
                    next += 1;
                }
            }
        }
        self.activities.truncate(next);
    }
}

/// Counts distinct decision levels.
#[derive(Drop)]
pub struct LevelCount {
    // By level, when it was counted last.
    stamps: Vec<u64>,
    round: u64,
    count: u16,
}

impl LevelCount {
    /// For levels up to `most`. `NoMemory`: memory was refused.
    pub fn new(alloc: Global, most: u32) -> Result<LevelCount, NoMemory> {
        Ok(LevelCount {
            stamps: vec![in alloc; 0u64; most as usize + 1]?,
            round: 0,
            count: 0,
        })
    }

    /// Begins to count anew.
    pub fn restart(&mut self) {
        self.round = self.round.saturating_add(1);
        self.count = 0;
    }

    /// Counts the level, unless it was counted before.
    pub fn insert(&mut self, level: u32) {
        if let Some(stamp) = self.stamps.get_mut(level as usize) {
            if *stamp != self.round {
                *stamp = self.round;
                self.count = self.count.saturating_add(1);
            }
        }
    }

    /// How many levels were counted.
    pub fn len(&self) -> u16 {
        self.count
    }
}
