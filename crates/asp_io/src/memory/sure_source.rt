//! A source in memory that never fails.
ghost use Rattle.std.specs.Prelude.{◌≡◌, ◌<◌, length, Some, Ok};
ghost use Rattle.std.specs.Io.{ReadsAtMost};
ghost use Rattle.std.specs.Io.KnownBytes.{ReadConsumes};
ghost use Rattle.asp_io.specs.Causes.{HasCause};
ghost use Rattle.asp_io.specs.Memory.{moved_count};

use super::supply::Supply;
use crate::fault::Failed;
use crate::source::Source;
use std::marker::Model;

/// Bytes in memory. A call gives at most so many of them, and none fails.
#[derive(Drop)]
pub struct SureSource {
    supply: Supply,
}

impl Model for SureSource {
    ghost use Rattle.asp_io.specs.Memory.{SupplyState};

    ghost Value = { SupplyState };

    ghost view = { λ source. source.supply };
}

impl SureSource {
    /// A source of these bytes, of which a call gives at most `most`.
    pub fn new(bytes: Vec<u8>, most: u32) -> SureSource
        requires { 0 < most }
        ensures { result ≡ record { left = bytes.items; most = most } }
    {
        SureSource {
            supply: Supply::new(bytes, most),
        }
    }
}

impl Source for SureSource {
    ghost left = { λ source. Some source.left };

    ghost faults = { λ _. 0 };

    fn read(&mut self, buf: &mut [u8]) -> Result<usize, Failed>
        requires { 0 < length buf.old }
        ensures bound { ReadsAtMost result buf.new }
        ensures bytes { ReadConsumes (Some self.old.left) (Some self.new.left) result buf.new }
        ensures cause { HasCause 0 0 result }

        // No call fails, and each moves as many bytes as it may.
        ensures count { result
            ≡ Ok (moved_count (length self.old.left) (length buf.old) self.old.most) }
        ensures most { self.new.most ≡ self.old.most }
    {
        Ok(self.supply.give(buf))
    }
}
