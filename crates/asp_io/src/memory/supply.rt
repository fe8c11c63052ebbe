//! Bytes in memory that are given out from the front.
ghost use Rattle.std.specs.Prelude.{◌≡◌, ◌<◌, ◌≤◌, ◌++◌, [], length, take};
ghost use Rattle.asp_io.specs.Memory.{moved_count};

use std::marker::Model;

/// The bytes that are left, of which one call gives at most `most`.
#[derive(Drop)]
pub(crate) struct Supply {
    bytes: Vec<u8>,
    given: usize,
    most: u32,
}

impl Model for Supply {
    ghost use Rattle.std.specs.Prelude.{◌<◌, ◌≤◌, drop, vec_len};
    ghost use Rattle.asp_io.specs.Memory.{SupplyState};

    ghost Value = { SupplyState };

    ghost view = { λ supply. record {
      left = drop supply.given supply.bytes.items;
      most = supply.most;
    } };

    ghost invariant = { λ supply. (supply.given ≤ vec_len supply.bytes) × (0 < supply.most) };
}

impl Supply {
    pub(crate) fn new(bytes: Vec<u8>, most: u32) -> Supply
        requires { 0 < most }
        ensures { result ≡ record { left = bytes.items; most = most } }
    {
        Supply {
            bytes,
            given: 0,
            most,
        }
    }

    /// Moves as many bytes to the front of `buf` as there are, as it has room for, and as one call gives.
    pub(crate) fn give(&mut self, buf: &mut [u8]) -> usize
        ensures count { result ≡ moved_count (length self.old.left) (length buf.old) self.old.most }
        ensures bound { result ≤ length buf.new }
        ensures bytes { self.old.left ≡ take result buf.new ++ self.new.left }
        ensures end { result ≡ 0 → 0 < length buf.new → self.new.left ≡ [] }
        ensures most { self.new.most ≡ self.old.most }
    {
        let rest = &self.bytes[self.given..];
        let count = rest.len().min(buf.len()).min(self.most as usize);
        buf[..count].copy_from_slice(&rest[..count]);
        self.given += count;
        count
    }
}
