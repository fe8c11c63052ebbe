//! Numbers in words.
ghost use Rattle.std.specs.Prelude.{◌≡◌, ◌≤◌, ◌<◌, ◌&&◌, ℕ, Some, IsTrue, min, nat_le};
ghost use Rattle.std.specs.List.{list_all};
ghost use Rattle.std.specs.Str.Parse.{digits_value};
ghost use Rattle.asp_defs.specs.Tokens.{is_digit as is_digit_of};
ghost use Rattle.asp_defs.specs.Words.{is_number as is_number_of, number_within as number_within_of};

/// One more than the largest number that a word may be.
const LARGE: u64 = 1_000_000_000_000_000_001;

fn is_digit(byte: u8) -> bool
    ensures { result ≡ is_digit_of byte }
{
    b'0' <= byte && byte <= b'9'
}

fn are_digits(bytes: &[u8]) -> bool
    ensures { result ≡ list_all is_digit_of bytes.now }
{
    bytes.iter().all(|byte| is_digit(*byte))
}

/// Whether the bytes are one to nineteen digits.
fn is_number(bytes: &[u8]) -> bool
    ensures { result ≡ is_number_of bytes.now }
{
    (1 <= bytes.len() && bytes.len() <= 19) && are_digits(bytes)
}

/// The number that the digits write, or `LARGE` where it is larger.
fn value_of(digits: &[u8]) -> u64
    requires { IsTrue (list_all is_digit_of digits.now) }
    ensures { result ≡ min (digits_value 10 digits.now) LARGE }
{
    let mut value = 0;
    for digit in digits {
        value = (value * 10 + u64::from(*digit - b'0')).min(LARGE);
    }
    value
}

fn is_within(least: u64, most: u64, value: u64) -> bool
    ensures { result ≡ (nat_le least value && nat_le value most) }
{
    least <= value && value <= most
}

/// The number from `least` to `most` that the bytes are, if they are one.
pub(crate) fn number_within(least: u64, most: u64, bytes: &[u8]) -> Option<u64>
    requires { most < LARGE }
    ensures value { result ≡ number_within_of least most bytes.now }
    ensures within { (value : ℕ) → result ≡ Some value → value ≤ most }
{
    if !is_number(bytes) {
        return None;
    }
    let value = value_of(bytes);
    if is_within(least, most, value) {
        Some(value)
    } else {
        None
    }
}
