//! Numbers that are listed under places, in one flat list. Contracts say nothing of them.

use asp_defs::NoMemory;
use std::alloc::Global;

/// The numbers under each place.
#[derive(Drop)]
pub struct Links {
    // For each place where its numbers begin in `numbers`, and behind the last one where they end.
    starts: Vec<usize>,
    // The numbers, place by place.
    numbers: Vec<usize>,
}

/// Makes each number the sum of those up to it, and answers the sum of all.
fn sum_up(numbers: &mut [usize]) -> usize {
    let mut sum = 0usize;
    for place in 0..numbers.len() {
        sum = sum.saturating_add(numbers[place]);
        numbers[place] = sum;
    }
    sum
}

impl Links {
    /// No numbers under so many places. First all that will come are counted, then room is made, and then they are added.
    /// `NoMemory`: memory was refused.
    pub fn new(alloc: Global, places: u32) -> Result<Links, NoMemory> {
        Ok(Links {
            starts: Vec::from_elem(alloc, 0usize, places as usize + 2)?,
            numbers: Vec::new(alloc),
        })
    }

    /// Counts a number under a place. It is counted two places behind, so that the sums tell where the place begins.
    pub fn count(&mut self, place: u32) {
        if let Some(count) = self.starts.get_mut(place as usize + 2) {
            *count = count.saturating_add(1);
        }
    }

    /// Makes room for what was counted. `NoMemory`: memory was refused.
    pub fn make_room(&mut self, alloc: Global) -> Result<(), NoMemory> {
        let all = sum_up(self.starts.as_mut_slice());
        self.numbers = Vec::from_elem(alloc, 0usize, all)?;
        Ok(())
    }

    /// Adds a number that was counted, behind the others under the place.
    pub fn add(&mut self, place: u32, number: usize) {
        let Some(end) = self.starts.get_mut(place as usize + 1) else {
            return;
        };
        let at = *end;
        *end = at.saturating_add(1);
        if let Some(entry) = self.numbers.get_mut(at) {
            *entry = number;
        }
    }

    fn start(&self, place: usize) -> usize {
        match self.starts.get(place) {
            Some(start) => *start,
            None => 0,
        }
    }

    /// Where the numbers under a place begin in the flat list, and where they end.
    pub fn range(&self, place: u32) -> (usize, usize) {
        (self.start(place as usize), self.start(place as usize + 1))
    }

    /// The number there.
    pub fn number(&self, at: usize) -> Option<usize> {
        match self.numbers.get(at) {
            Some(number) => Some(*number),
            None => None,
        }
    }
}
