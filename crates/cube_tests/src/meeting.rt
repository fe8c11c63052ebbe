//! Whether a set meets bounds.
ghost use Rattle.std.specs.Prelude.{◌≡◌, ◌<◌, ◌&&◌, not, IsTrue, length};
ghost use Rattle.std.specs.List.{list_any, list_all, filter};
ghost use Rattle.asp_bits.specs.Places.{true_places};
ghost use Rattle.asp_defs.specs.Interpretations.{holds};
ghost use Rattle.asp_defs.specs.Bounds.{counts, is_at_least, is_at_most, meets, meets_all};
ghost use Rattle.asp_reduct.specs.Bounds.{are_below, is_term_below, is_bound_below};

use asp_bits::Bits;
use asp_defs::{Bound, Counted};
use asp_reduct::any_true;

/// Whether each of the atoms is true.
fn all_true(atoms: &[u32], set: &Bits) -> bool
    requires { IsTrue (are_below (length set.now) atoms.now) }
    ensures { result ≡ list_all (holds (true_places set.now)) atoms.now }
{
    for atom in atoms {
        if !set.get(*atom) {
            return false;
        }
    }
    true
}

/// Whether none of the atoms is true.
fn none_true(atoms: &[u32], set: &Bits) -> bool
    requires { IsTrue (are_below (length set.now) atoms.now) }
    ensures { result ≡ list_all (λ a. not (holds (true_places set.now) a)) atoms.now }
{
    !any_true(atoms, set)
}

/// Whether the term counts the atom.
fn is_of(term: &Counted, atom: u32, set: &Bits) -> bool
    requires { IsTrue (is_term_below (length set.now) term.now) }
    ensures { result ≡ counts (true_places set.now) atom term.now }
{
    term.atom == atom && all_true(term.pos.as_slice(), set) && none_true(term.neg.as_slice(), set)
}

/// Whether one of the terms counts the atom.
fn is_of_one(terms: &[Counted], atom: u32, set: &Bits) -> bool
    requires { IsTrue (list_all (is_term_below (length set.now)) terms.now) }
    ensures { result ≡ list_any (counts (true_places set.now) atom) terms.now }
{
    for term in terms {
        if is_of(term, atom, set) {
            return true;
        }
    }
    false
}

/// Whether the atom is true, and one of the terms counts it.
fn is_counted(terms: &[Counted], atom: u32, set: &Bits) -> bool
    requires terms { IsTrue (list_all (is_term_below (length set.now)) terms.now) }
    requires atom { atom < length set.now }
    ensures { result ≡
        (holds (true_places set.now) atom && list_any (counts (true_places set.now) atom) terms.now) }
{
    let inside = set.get(atom);
    let of_one = is_of_one(terms, atom, set);
    inside && of_one
}

/// How many true atoms the terms count.
fn count_of(terms: &[Counted], set: &Bits) -> u32
    requires { IsTrue (list_all (is_term_below (length set.now)) terms.now) }
    ensures { result ≡ length (filter
        (λ a. list_any (counts (true_places set.now) a) terms.now) (true_places set.now)) }
{
    let mut count = 0;
    for atom in 0..set.len() {
        if is_counted(terms, atom, set) {
            count += 1;
        }
    }
    count
}

/// Whether the count is at least the lower end, where there is one.
fn is_enough(low: Option<i32>, count: u32) -> bool
    ensures { result ≡ is_at_least low count }
{
    match low {
        Some(low) => i64::from(low) <= i64::from(count),
        None => true,
    }
}

/// Whether the count is at most the upper end, where there is one.
fn is_few(high: Option<i32>, count: u32) -> bool
    ensures { result ≡ is_at_most high count }
{
    match high {
        Some(high) => i64::from(count) <= i64::from(high),
        None => true,
    }
}

/// Whether the set meets the bound.
fn is_met(bound: &Bound, set: &Bits) -> bool
    requires { IsTrue (is_bound_below (length set.now) bound.now) }
    ensures { result ≡ meets (true_places set.now) bound.now }
{
    if !(all_true(bound.pos.as_slice(), set) && none_true(bound.neg.as_slice(), set)) {
        return true;
    }
    let count = count_of(bound.counted.as_slice(), set);
    is_enough(bound.low, count) && is_few(bound.high, count)
}

/// Whether the set meets the bounds.
pub fn are_met(bounds: &[Bound], set: &Bits) -> bool
    requires { IsTrue (list_all (is_bound_below (length set.now)) bounds.now) }
    ensures { result ≡ meets_all (true_places set.now) bounds.now }
{
    for bound in bounds {
        if !is_met(bound, set) {
            return false;
        }
    }
    true
}
