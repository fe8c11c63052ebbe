//! Sums, products and powers that end at the greatest count that is shown, 10^18.
ghost use Rattle.std.specs.Prelude.{◌≡◌, ◌+◌, ◌*◌, ◌^◌};
ghost use Rattle.asp_atoms.specs.Counts.{shown};

use asp_defs::MOST_SHOWN;

/// A sum, at most the greatest count that is shown.
pub fn sum(left: u64, right: u64) -> u64
    ensures { result ≡ shown (left + right) }
{
    left.saturating_add(right).min(MOST_SHOWN)
}

/// A product, at most the greatest count that is shown.
pub fn product(left: u64, right: u64) -> u64
    ensures { result ≡ shown (left * right) }
{
    left.saturating_mul(right).min(MOST_SHOWN)
}

/// A power, at most the greatest count that is shown.
pub fn power(size: u64, exponent: usize) -> u64
    ensures { result ≡ shown (size ^ exponent) }
{
    let mut count = 1_u64;
    for _place in 0..exponent {
        count = product(count, size);
    }
    count
}
