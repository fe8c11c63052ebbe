//! Integers as intervals.
ghost use Rattle.std.specs.Prelude.{◌≡◌, ◌<◌, ◌++◌, ◌+ℤ◌, pos, map, length, min, IfOk, OnOk};
ghost use Rattle.std.specs.List.{flat_map};
ghost use Rattle.std.specs.Ordering.{int_cmp};
ghost use Rattle.asp_defs.specs.Constants.{distinct, interval_length};
ghost use Rattle.asp_defs.specs.Limits.{most_shown};
ghost use Rattle.asp_atoms.specs.Universes.{integers, integers_of, term_intervals};
ghost use Rattle.asp_atoms.specs.Gaps.{apart_from, apart_at, free_behind, first_low};

use crate::counts::sum;
use asp_defs::{Const, NoMemory, Term};
use std::alloc::Global;

/// The integers from `low` to `high`: none where these are swapped.
#[derive(Clone, Copy, PartialEq, Eq, PartialOrd, Ord)]
pub struct Interval {
    /// The least integer, where there is one.
    pub low: i32,
    /// The greatest integer, where there is one.
    pub high: i32,
}

/// Adds the integers for which a term stands.
fn add_term(out: &mut Vec<Interval>, term: &Term) -> Result<(), NoMemory>
    ensures { OnOk result (out.new.items ≡ out.old.items ++ term_intervals term.now) }
{
    match term {
        Term::Int(value) => {
            out.push(Interval {
                low: *value,
                high: *value,
            })?;
        }
        Term::Range(low, high) => {
            out.push(Interval {
                low: *low,
                high: *high,
            })?;
        }
        Term::Sym(_) => {}
        Term::Var(_) => {}
        Term::Anon(_) => {}
    }
    Ok(())
}

/// Adds an interval without the integers below `free`, if it has others. The answer is the integer behind its high end,
/// or `free` where that is greater.
fn add_apart(out: &mut Vec<Interval>, free: i64, interval: Interval) -> Result<i64, NoMemory>
    ensures added { OnOk result (out.new.items ≡ out.old.items ++ apart_at free interval) }
    ensures free { IfOk result (λ next. next ≡ free_behind free interval) }
{
    let low = free.max(i64::from(interval.low));
    let high = i64::from(interval.high);
    if low <= high {
        out.push(Interval {
            low: low as i32,
            high: interval.high,
        })?;
    }
    Ok(free.max(high + 1))
}

/// Intervals whose low ends ascend, each without the integers of those before it.
fn apart(alloc: Global, intervals: &[Interval]) -> Result<Vec<Interval>, NoMemory>
    ensures { IfOk result (λ out. out.items ≡ apart_from (first_low intervals.now) intervals.now) }
{
    let mut out = Vec::new(alloc);
    let mut free = match intervals.first() {
        Some(first) => i64::from(first.low),
        None => 0,
    };
    for interval in intervals {
        free = add_apart(&mut out, free, *interval)?;
    }
    Ok(out)
}

/// Intervals and those of further terms: ascending, and no integer in two of them.
pub fn intervals_with(
    alloc: Global,
    before: &[Interval],
    terms: &[&Term],
) -> Result<Vec<Interval>, NoMemory>
    ensures { IfOk result (λ out. integers_of out.items
        ≡ distinct int_cmp (integers_of (before.now ++ flat_map term_intervals (map (λ t. t.now) terms.now)))) }
{
    let mut intervals = Vec::from_slice(alloc, before)?;
    for term in terms {
        add_term(&mut intervals, term)?;
    }
    intervals.sort_unstable();
    apart(alloc, intervals.as_slice())
}

/// How many integers an interval has: none where its ends are swapped.
pub fn interval_length(low: i32, high: i32) -> u64
    ensures { result ≡ interval_length low high }
{
    if low <= high {
        (i64::from(high) - i64::from(low) + 1) as u64
    } else {
        0
    }
}

/// The integer so many steps behind the first one of an interval that has more integers than that.
pub fn stepped(low: i32, high: i32, step: u64) -> i32
    requires { step < interval_length low high }
    ensures { result ≡ low +ℤ pos step }
{
    (i64::from(low) + step as i64) as i32
}

/// How many integers an interval has.
fn integers_in(interval: Interval) -> u64
    ensures { result ≡ interval_length interval.low interval.high }
{
    interval_length(interval.low, interval.high)
}

/// How many integers intervals have, at most 10^18.
pub fn count_integers(intervals: &[Interval]) -> u64
    ensures { result ≡ min (length (integers_of intervals.now)) most_shown }
{
    let mut count = 0_u64;
    for interval in intervals {
        count = sum(count, integers_in(*interval));
    }
    count
}

/// Adds the integers of an interval.
fn add_integers(out: &mut Vec<Const>, interval: Interval) -> Result<(), NoMemory>
    ensures { OnOk result (out.new.items ≡ out.old.items ++ map Const.Int (integers interval)) }
{
    for step in 0..integers_in(interval) {
        let value = stepped(interval.low, interval.high, step);
        out.push(Const::Int(value))?;
    }
    Ok(())
}

/// Adds the integers of intervals.
pub fn add_intervals(out: &mut Vec<Const>, intervals: &[Interval]) -> Result<(), NoMemory>
    ensures { OnOk result (out.new.items ≡ out.old.items ++ map Const.Int (integers_of intervals.now)) }
{
    for interval in intervals {
        add_integers(out, *interval)?;
    }
    Ok(())
}
