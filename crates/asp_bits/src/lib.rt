//! Interpretations as packed words.
//!
//! A [`Bits`] holds one truth value for each of its places, 64 places a word. Contracts see it as the list of these
//! values. Nothing but `new` and `copy` takes memory.
#![tactic(auto)]

ghost use Rattle.std.specs.Prelude.{◌≡◌, ℕ, ◌<◌, ◌≢◌, ◌==◌, false, length, replicate, IfOk, Some};
ghost use Rattle.std.specs.List.{slice_get, slice_set};
ghost use Rattle.asp_bits.specs.Order.{ComesBefore};
ghost use Rattle.std.specs.Int.{bit_at};
ghost use Rattle.asp_bits.specs.Words.{WordComesBefore, SetsBit};

use std::alloc::{AllocError, Global};
use std::cmp::Ordering;
use std::marker::Model;

/// Memory was refused.
pub type NoMemory = AllocError;

/// How many places a word holds.
const WORD: u32 = 64;

/// A list of truth values of a fixed length, packed into words.
#[derive(Debug, Drop)]
pub struct Bits {
    words: Vec<u64>,
    len: u32,
}

impl Model for Bits {
    ghost use Rattle.std.specs.Prelude.{List, Bool};
    ghost use Rattle.asp_bits.specs.Words.{truth_values, IsPacked};

    ghost Value = { List Bool };

    ghost view = { λ b. truth_values b.words.items b.len };

    ghost invariant = { λ b. IsPacked b.words.items b.len };
}

impl Bits {
    /// As many places as `len`, all false.
    #[tactic(auto, using(crate::proofs::Packed::fresh))]
    pub fn new(alloc: Global, len: u32) -> Result<Bits, NoMemory>
        ensures { IfOk result (λ bits. bits ≡ replicate len false) }
    {
        let words = Vec::from_elem(alloc, 0u64, len.div_ceil(WORD) as usize)?;
        Ok(Bits { words, len })
    }

    /// An equal value.
    pub fn copy(&self, alloc: Global) -> Result<Bits, NoMemory>
        ensures { IfOk result (λ bits. bits ≡ self.now) }
    {
        let words = Vec::from_slice(alloc, self.words.as_slice())?;
        Ok(Bits {
            words,
            len: self.len,
        })
    }

    /// How many places there are.
    pub fn len(&self) -> u32
        ensures { result ≡ length self.now }
    {
        self.len
    }

    /// The truth value at a place.
    pub fn get(&self, at: u32) -> bool
        requires { at < length self.now }
        ensures { slice_get self.now at ≡ Some result }
    {
        is_set(self.words[(at / WORD) as usize], at % WORD)
    }

    /// Sets the truth value at a place.
    pub fn set(&mut self, at: u32, value: bool)
        requires { at < length self.old }
        ensures { self.new ≡ slice_set self.old at value }
    {
        let word = (at / WORD) as usize;
        self.words[word] = with_bit(self.words[word], at % WORD, value);
    }

    /// The order of interpretations: of two that differ, the one that is false at the first place on which they differ
    /// comes first.
    pub fn compare(&self, other: &Bits) -> Ordering
        requires { length self.now ≡ length other.now }
        ensures less { result ≡ Ordering.Less → ComesBefore self.now other.now }
        ensures equal { result ≡ Ordering.Equal → self.now ≡ other.now }
        ensures greater { result ≡ Ordering.Greater → ComesBefore other.now self.now }
    {
        for (index, mine) in self.words.iter().enumerate() {
            let theirs = other.words[index];
            if *mine != theirs {
                return compare_words(*mine, theirs);
            }
        }
        Ordering::Equal
    }
}

/// Whether a bit of a word is set.
fn is_set(word: u64, bit: u32) -> bool
    requires { bit < 64 }
    ensures { result ≡ (bit_at word bit == 1) }
{
    (word >> bit) & 1 == 1
}

/// The word with one bit set or cleared.
fn with_bit(word: u64, bit: u32, value: bool) -> u64
    requires { bit < 64 }
    ensures { SetsBit word result bit value }
{
    let mask = 1u64 << bit;
    if value { word | mask } else { word & !mask }
}

/// The order of two words that differ, by the lowest bit on which they do.
fn compare_words(mine: u64, theirs: u64) -> Ordering
    requires { mine ≢ theirs }
    ensures less { result ≡ Ordering.Less → WordComesBefore mine theirs }
    ensures unequal { result ≢ Ordering.Equal }
    ensures greater { result ≡ Ordering.Greater → WordComesBefore theirs mine }
{
    let bit = (mine ^ theirs).trailing_zeros();
    if (mine >> bit) & 1 == 0 {
        Ordering::Less
    } else {
        Ordering::Greater
    }
}
