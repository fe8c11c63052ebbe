//! A sink in memory whose calls fail by a list.
ghost use Rattle.std.specs.Prelude.{◌≡◌, ◌⊎◌, ◌↔◌, ◌<◌, ◌-◌, [], length, Some, Contains, IsErr, IfOk, is_err};
ghost use Rattle.std.specs.Io.{WritesAtMost};
ghost use Rattle.std.specs.Io.KnownBytes.{WriteAppends};
ghost use Rattle.asp_io.specs.Causes.{HasCause};
ghost use Rattle.asp_io.specs.Memory.{moved_count, next_count, one_more};

use super::calls::Calls;
use crate::fault::Failed;
use crate::sink::Sink;
use std::alloc::{AllocError as NoMemory, Global};
use std::marker::Model;

/// Takes bytes into memory until its room is used up. A call takes at most so many of them, and the
/// calls of a list fail.
#[derive(Drop)]
pub struct MemSink {
    taken: Vec<u8>,
    room: usize,
    most: u32,
    calls: Calls,
}

impl Model for MemSink {
    ghost use Rattle.std.specs.Prelude.{◌<◌, ◌≤◌, vec_len, vec_capacity};
    ghost use Rattle.asp_io.specs.Memory.{SinkState};

    ghost Value = { SinkState };

    ghost view = { λ sink. record {
      taken = sink.taken.items;
      room = sink.room;
      most = sink.most;
      calls = sink.calls;
    } };

    ghost invariant = { λ sink. (vec_len sink.taken ≤ sink.room)
        × (sink.room ≤ vec_capacity sink.taken)
        × (0 < sink.most) };
}

impl MemSink {
    /// A sink with room for so many bytes, of which a call takes at most `most`. The calls are numbered
    /// from 1, and those whose number is in `failing` fail, as do all once the room is used up.
    pub fn new(alloc: Global, room: u32, most: u32, failing: Vec<u32>) -> Result<MemSink, NoMemory>
        requires { 0 < most }
        ensures { IfOk result (λ sink. sink ≡ record {
          taken = [];
          room = room;
          most = most;
          calls = record { failing = failing.items; made = 0; faults = 0 };
        }) }
    {
        let room = room as usize;
        let taken = Vec::with_capacity(alloc, room)?;
        let calls = Calls::new(failing);
        Ok(MemSink {
            taken,
            room,
            most,
            calls,
        })
    }

    /// The bytes that were taken.
    pub fn taken(&self) -> &[u8]
        ensures { result.now ≡ self.now.taken }
    {
        &self.taken
    }
}

impl Sink for MemSink {
    ghost taken = { λ sink. Some sink.taken };

    ghost faults = { λ sink. sink.calls.faults };

    fn write(&mut self, bytes: &[u8]) -> Result<usize, Failed>
        requires { 0 < length bytes.now }
        ensures some { IfOk result (λ count. 0 < count) }
        ensures bound { WritesAtMost result bytes.now }
        ensures bytes { WriteAppends (Some self.old.taken) (Some self.new.taken) result bytes.now }
        ensures cause { HasCause self.old.calls.faults self.new.calls.faults result }

        // The calls of the list fail, and those that find no room, and no others.
        ensures failing { IsErr result
            ↔ (Contains self.old.calls.failing (next_count self.old.calls.made)
            ⊎ (length self.old.taken ≡ self.old.room)) }

        // A call takes as many bytes as it may.
        ensures count { IfOk result (λ count. count ≡ moved_count (length bytes.now)
            (self.old.room - length self.old.taken) self.old.most) }
        ensures calls { self.new.calls ≡ one_more self.old.calls (is_err result) }
        ensures limits { (self.new.room ≡ self.old.room) × (self.new.most ≡ self.old.most) }
    {
        let room = self.room - self.taken.len();
        let failed = room == 0 || self.calls.next_fails();
        self.calls.count(failed);
        if failed {
            return Err(Failed);
        }
        let count = bytes.len().min(room).min(self.most as usize);
        self.taken.extend_from_slice(&bytes[..count]).unwrap();
        Ok(count)
    }
}
