//! A source in memory whose calls fail by a list.
ghost use Rattle.std.specs.Prelude.{◌≡◌, ◌<◌, ◌↔◌, length, Some, Contains, IsErr, IfOk, is_err};
ghost use Rattle.std.specs.Io.{ReadsAtMost};
ghost use Rattle.std.specs.Io.KnownBytes.{ReadConsumes};
ghost use Rattle.asp_io.specs.Causes.{HasCause};
ghost use Rattle.asp_io.specs.Memory.{moved_count, next_count, one_more};

use super::calls::Calls;
use super::supply::Supply;
use crate::fault::Failed;
use crate::source::Source;
use std::marker::Model;

/// Bytes in memory. A call gives at most so many of them, and the calls of a list fail.
#[derive(Drop)]
pub struct MemSource {
    supply: Supply,
    calls: Calls,
}

impl Model for MemSource {
    ghost use Rattle.asp_io.specs.Memory.{SourceState};

    ghost Value = { SourceState };

    ghost view = { λ source. record {
      left = source.supply.left;
      most = source.supply.most;
      calls = source.calls;
    } };
}

impl MemSource {
    /// A source of these bytes, of which a call gives at most `most`. The calls are numbered from 1,
    /// and those whose number is in `failing` fail.
    pub fn new(bytes: Vec<u8>, most: u32, failing: Vec<u32>) -> MemSource
        requires { 0 < most }
        ensures { result ≡ record {
          left = bytes.items;
          most = most;
          calls = record { failing = failing.items; made = 0; faults = 0 };
        } }
    {
        MemSource {
            supply: Supply::new(bytes, most),
            calls: Calls::new(failing),
        }
    }
}

impl Source for MemSource {
    ghost left = { λ source. Some source.left };

    ghost faults = { λ source. source.calls.faults };

    fn read(&mut self, buf: &mut [u8]) -> Result<usize, Failed>
        requires { 0 < length buf.old }
        ensures bound { ReadsAtMost result buf.new }
        ensures bytes { ReadConsumes (Some self.old.left) (Some self.new.left) result buf.new }
        ensures cause { HasCause self.old.calls.faults self.new.calls.faults result }

        // The calls of the list fail and no others.
        ensures failing { IsErr result
            ↔ Contains self.old.calls.failing (next_count self.old.calls.made) }

        // A call moves as many bytes as it may.
        ensures count { IfOk result (λ count. count ≡ moved_count (length self.old.left)
            (length buf.old) self.old.most) }
        ensures calls { self.new.calls ≡ one_more self.old.calls (is_err result) }
        ensures most { self.new.most ≡ self.old.most }
    {
        let failed = self.calls.next_fails();
        self.calls.count(failed);
        if failed {
            return Err(Failed);
        }
        Ok(self.supply.give(buf))
    }
}
