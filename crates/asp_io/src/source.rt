//! The trait of sources, and the loop that reads one to its end.
ghost use Rattle.std.specs.Prelude.{◌≡◌, ◌+◌, ◌<◌, ◌≤◌, ◌++◌, List, ℕ, length, take, Option, IfOk, OnOk, OnErr, IsErrOf, vec_len};
ghost use Rattle.std.specs.Io.{ReadsAtMost};
ghost use Rattle.std.specs.Io.KnownBytes.{Consumes, IsAtEnd, ReadConsumes};
ghost use Rattle.asp_io.specs.Causes.{HasCause, Rose};
ghost use Rattle.asp_io.specs.Moved.{LosesFront, TakesFirst};

use crate::fault::{Failed, ReadFault};
use std::alloc::{AllocError, Global};

/// How many bytes one read may give.
const CHUNK: usize = 65536;

/// Where bytes come from.
pub trait Source {
    /// The bytes that are left, where the source tells them.
    ghost left: { Self → Option (List ℕ) };

    /// How many calls have failed. It never falls, and stands still at the end of 64 bits.
    ghost faults: { Self → ℕ };

    /// Moves some of the bytes that are left, from the first on, to the front of `buf`, and tells how many.
    /// None is moved only at the end of input, and after `Failed`.
    fn read(&mut self, buf: &mut [u8]) -> Result<usize, Failed>
        requires { 0 < length buf.old }
        ensures bound { ReadsAtMost result buf.new }
        ensures bytes { ReadConsumes (left self.old) (left self.new) result buf.new }
        ensures cause { HasCause (faults self.old) (faults self.new) result };
}

/// Reads until a read gives nothing or `most` bytes are held, and answers the bytes.
pub fn read_all<S: Source>(alloc: Global, source: &mut S, most: u64) -> Result<Vec<u8>, ReadFault>
    requires { most ≤ 1048577 }

    // The bytes are the first that the source had, all or as many as `most`, and the others are left.
    ensures bytes { IfOk result (λ taken. TakesFirst (S.left source.old) (S.left source.new)
        most taken.items) }
    ensures bound { IfOk result (λ taken. vec_len taken ≤ most) }

    // After a fault the bytes so far are lost, and no others.
    ensures lost { OnErr result (LosesFront (S.left source.old) (S.left source.new)) }

    // No fault is passed over, and none is made up.
    ensures later { S.faults source.old ≤ S.faults source.new }
    ensures kept { OnOk result (S.faults source.new ≡ S.faults source.old) }
    ensures failed { IsErrOf result ReadFault.Failed
        → Rose (S.faults source.old) (S.faults source.new) }
    ensures memory { IsErrOf result ReadFault.NoMemory
        → S.faults source.new ≡ S.faults source.old }
{
    let most = most as usize;
    let mut chunk = zeros(alloc, CHUNK)?;
    let mut taken = Vec::new(alloc);
    while taken.len() < most {
        let room = chunk.len().min(most - taken.len());
        if read_more(source, &mut chunk[..room], &mut taken)? == 0 {
            return Ok(taken);
        }
    }
    Ok(taken)
}

/// So many zeros, on the heap.
fn zeros(alloc: Global, count: usize) -> Result<Vec<u8>, AllocError>
    ensures { IfOk result (λ zeros. vec_len zeros ≡ count) }
{
    vec![in alloc; 0u8; count]
}

/// Reads once into `chunk`, and adds what came to `taken`.
fn read_more<S: Source>(
    source: &mut S,
    chunk: &mut [u8],
    taken: &mut Vec<u8>,
) -> Result<usize, ReadFault>
    requires { 0 < length chunk.old }
    ensures bytes { IfOk result (λ count. (bytes : List ℕ)
        × Consumes (S.left source.old) (S.left source.new) bytes
        × (taken.new.items ≡ taken.old.items ++ bytes)
        × (length bytes ≡ count)) }
    ensures bound { IfOk result (λ count. count ≤ length chunk.old) }
    ensures end { IfOk result (λ count. count ≡ 0 → IsAtEnd (S.left source.new)) }
    ensures lost { OnErr result (LosesFront (S.left source.old) (S.left source.new)) }
    ensures later { S.faults source.old ≤ S.faults source.new }
    ensures kept { OnOk result (S.faults source.new ≡ S.faults source.old) }
    ensures failed { IsErrOf result ReadFault.Failed
        → Rose (S.faults source.old) (S.faults source.new) }
    ensures memory { IsErrOf result ReadFault.NoMemory
        → S.faults source.new ≡ S.faults source.old }
{
    let count = source.read(chunk)?;
    taken.extend_from_slice(&chunk[..count])?;
    Ok(count)
}
