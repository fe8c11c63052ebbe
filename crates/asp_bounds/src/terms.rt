//! Which terms of a bound count in an interpretation.
ghost use Rattle.std.specs.Prelude.{◌≡◌, true, length, take, IsTrue, IfOk, MatchOption};
ghost use Rattle.asp_bits.specs.Places.{true_places};
ghost use Rattle.asp_defs.specs.Bounds.{counted_atoms};
ghost use Rattle.asp_defs.specs.Lists.{IsIn};
ghost use Rattle.asp_defs.specs.Truth.{literals_true};
ghost use Rattle.asp_defs.specs.declared.ground.Counted.{Counted};
ghost use Rattle.asp_reduct.specs.Bounds.{is_term_below, is_bound_below};
ghost use Rattle.asp_bounds.specs.Terms.{is_counted, IsReason, counted_terms};

use asp_bits::Bits;
use asp_defs::{Bound, Counted, Lit, NoMemory};
use asp_reduct::{any_true, first_false, first_true};
use std::alloc::Global;

/// Whether the body is true.
pub fn body_true(bound: &Bound, set: &Bits) -> bool
    requires { IsTrue (is_bound_below (length set.now) bound.now) }
    ensures { result ≡ literals_true (true_places set.now) bound.now.pos bound.now.neg }
{
    first_false(bound.pos.as_slice(), set).is_none() && !any_true(bound.neg.as_slice(), set)
}

/// Why a term doesn't count, as a literal that is false: its atom is false, or a literal of its condition is. None where it counts.
pub fn reason(term: &Counted, set: &Bits) -> Option<Lit>
    requires { IsTrue (is_term_below (length set.now) term.now) }
    ensures { MatchOption result
        (is_counted (true_places set.now) term.now ≡ true)
        (IsReason (true_places set.now) term.now) }
{
    if !set.get(term.atom) {
        return Some(Lit {
            atom: term.atom,
            positive: true,
        });
    }
    if let Some(atom) = first_false(term.pos.as_slice(), set) {
        return Some(Lit {
            atom,
            positive: true,
        });
    }
    if let Some(atom) = first_true(term.neg.as_slice(), set) {
        return Some(Lit {
            atom,
            positive: false,
        });
    }
    None
}

/// Whether the term counts: its atom is true, and so is its condition.
pub fn counts(term: &Counted, set: &Bits) -> bool
    requires { IsTrue (is_term_below (length set.now) term.now) }
    ensures { result ≡ is_counted (true_places set.now) term.now }
{
    reason(term, set).is_none()
}

/// The atoms of the terms that count, as often as they do.
fn repeated(alloc: Global, terms: &[Counted], set: &Bits) -> Result<Vec<u32>, NoMemory>
    requires { (c : Counted) → IsIn c terms.now → IsTrue (is_term_below (length set.now) c) }
    ensures { IfOk result (λ atoms. atoms.items ≡ counted_terms (true_places set.now) terms.now) }
{
    let mut atoms = Vec::new(alloc);
    for term in terms {
        if counts(term, set) {
            atoms.push(term.atom)?;
        }
    }
    Ok(atoms)
}

/// The atoms that the bound counts, ascending.
pub fn counted(alloc: Global, bound: &Bound, set: &Bits) -> Result<Vec<u32>, NoMemory>
    requires { IsTrue (is_bound_below (length set.now) bound.now) }
    ensures { IfOk result (λ atoms. atoms.items ≡ counted_atoms (true_places set.now) bound.now) }
{
    let mut atoms = repeated(alloc, bound.counted.as_slice(), set)?;
    atoms.sort_unstable();
    atoms.dedup();
    Ok(atoms)
}
