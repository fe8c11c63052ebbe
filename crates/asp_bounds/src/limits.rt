//! Numbers against the ends of a bound.
ghost use Rattle.std.specs.Prelude.{◌≡◌, ◌<◌, ◌≤◌, ◌^◌, ℕ, false, true, MatchOption};
ghost use Rattle.asp_defs.specs.Bounds.{is_at_least, is_at_most};

/// Whether the count is at least the lower end, where there is one.
pub fn is_enough(low: Option<i32>, count: usize) -> bool
    requires { count < 2 ^ 62 }
    ensures { result ≡ is_at_least low count }
{
    match low {
        Some(low) => i64::from(low) <= count as i64,
        None => true,
    }
}

/// The least number that is more than the upper end, where the count is more; else none.
pub fn too_many(high: Option<i32>, count: usize) -> Option<usize>
    requires { count < 2 ^ 62 }
    ensures { MatchOption result
        (is_at_most high count ≡ true)
        (λ most. (most ≤ count) × ((n : ℕ) → most ≤ n → is_at_most high n ≡ false)) }
{
    let Some(high) = high else {
        return None;
    };
    if count as i64 <= i64::from(high) {
        return None;
    }
    if high < 0 {
        return Some(0);
    }
    Some(high as usize + 1)
}
