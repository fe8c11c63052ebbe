//! A bound that isn't met.
ghost use Rattle.std.specs.Prelude.{◌≡◌, true, false, ℕ, ◌≤◌, length, IsTrue, IfOk, MatchOption};
ghost use Rattle.std.specs.List.{list_all};
ghost use Rattle.asp_bits.specs.Places.{true_places};
ghost use Rattle.asp_defs.specs.Bounds.{counted_atoms, is_at_least, is_at_most, meets, meets_all};
ghost use Rattle.asp_defs.specs.Games.{ascends};
ghost use Rattle.asp_defs.specs.Lists.{IsIn};
ghost use Rattle.asp_defs.specs.Truth.{literals_true};
ghost use Rattle.asp_reduct.specs.Bounds.{is_bound_below};
ghost use Rattle.asp_bounds.specs.Denials.{IsBoundClause, IsBoundsClause};

use crate::denials::{add_atoms, add_reasons, body_denial, places};
use crate::limits::{is_enough, too_many};
use crate::terms::{body_true, counted};
use asp_bits::Bits;
use asp_defs::{Bound, List, Lit, NoMemory};
use std::alloc::Global;

/// The clause of a bound that counts these atoms alone, which are too few.
fn low_clause(
    alloc: Global,
    bound: &Bound,
    set: &Bits,
    atoms: &[u32],
) -> Result<List<Lit>, NoMemory>
    requires below { IsTrue (is_bound_below (length set.now) bound.now) }
    requires body { literals_true (true_places set.now) bound.now.pos bound.now.neg ≡ true }
    requires counted { atoms.now ≡ counted_atoms (true_places set.now) bound.now }
    requires few { is_at_least bound.now.low (length (counted_atoms (true_places set.now) bound.now)) ≡ false }
    ensures { IfOk result (λ clause. IsBoundClause bound.now (true_places set.now) clause) }
{
    let mut settled = places(alloc, atoms, set.len())?;
    let mut clause = body_denial(alloc, bound, set)?;
    add_reasons(&mut clause, bound, set, &mut settled)?;
    Ok(List::from_vec(clause))
}

/// The clause of a bound that counts these atoms, ascending, which are too many.
fn high_clause(
    alloc: Global,
    bound: &Bound,
    set: &Bits,
    atoms: &[u32],
) -> Result<List<Lit>, NoMemory>
    requires below { IsTrue (is_bound_below (length set.now) bound.now) }
    requires body { literals_true (true_places set.now) bound.now.pos bound.now.neg ≡ true }
    requires counted { (a : ℕ) → IsIn a atoms.now → IsIn a (counted_atoms (true_places set.now) bound.now) }
    requires ascending { ascends atoms.now ≡ true }
    requires many { (n : ℕ) → length atoms.now ≤ n → is_at_most bound.now.high n ≡ false }
    ensures { IfOk result (λ clause. IsBoundClause bound.now (true_places set.now) clause) }
{
    let mut wanted = places(alloc, atoms, set.len())?;
    let mut clause = body_denial(alloc, bound, set)?;
    add_atoms(&mut clause, bound, set, atoms, &mut wanted)?;
    Ok(List::from_vec(clause))
}

/// A clause of the bound where the interpretation doesn't meet it.
fn unmet_bound(alloc: Global, bound: &Bound, set: &Bits) -> Result<Option<List<Lit>>, NoMemory>
    requires { IsTrue (is_bound_below (length set.now) bound.now) }
    ensures { IfOk result (λ found. MatchOption found
        (meets (true_places set.now) bound.now ≡ true)
        (IsBoundClause bound.now (true_places set.now))) }
{
    if !body_true(bound, set) {
        return Ok(None);
    }
    let atoms = counted(alloc, bound, set)?;
    if !is_enough(bound.low, atoms.len()) {
        return Ok(Some(low_clause(alloc, bound, set, atoms.as_slice())?));
    }
    let Some(most) = too_many(bound.high, atoms.len()) else {
        return Ok(None);
    };
    let first = &atoms.as_slice()[..most];
    Ok(Some(high_clause(alloc, bound, set, first)?))
}

/// A clause that is false in `set` and true in each interpretation that meets one of the bounds, the first that `set` doesn't
/// meet; none where it meets all. Each of its atoms stands in that bound.
///
/// Where the bound counts too few atoms, the clause has beside the literals against the body one for each false atom, and for each true
/// atom that isn't counted one for each of its terms; where it counts too many, it denies one atom more than are allowed, each by one term.
/// The time is linear in the lengths of the bounds up to that one and of the set, but for the sort of the atoms that each counts.
/// `NoMemory`: memory was refused.
pub fn unmet(alloc: Global, bounds: &[Bound], set: &Bits) -> Result<Option<List<Lit>>, NoMemory>
    requires { IsTrue (list_all (is_bound_below (length set.now)) bounds.now) }
    ensures { IfOk result (λ found. MatchOption found
        (meets_all (true_places set.now) bounds.now ≡ true)
        (IsBoundsClause bounds.now (true_places set.now))) }
{
    for bound in bounds {
        let found = unmet_bound(alloc, bound, set)?;
        if let Some(clause) = found {
            return Ok(Some(clause));
        }
    }
    Ok(None)
}
