//! The universes and predicates of a program's levels, and how many atoms it has: what is known before any constant or atom
//! is written down.
ghost use Rattle.std.specs.Prelude.{◌≡◌, ◌^◌, None, length, min, MatchResult};
ghost use Rattle.std.specs.List.{sum_by};
ghost use Rattle.asp_defs.specs.Bases.{bases_of};
ghost use Rattle.asp_defs.specs.Limits.{most_shown};
ghost use Rattle.asp_atoms.specs.Signatures.{predicates_of};
ghost use Rattle.asp_atoms.specs.Answers.{IsFound, IsBaseRefusal, first_past, IsPast};
ghost use Rattle.asp_atoms.specs.Gathered.{IsGathered};

use crate::constants::{Constants, count, universes};
use crate::counts::{power, sum};
use crate::signatures::{Signature, signatures};
use crate::terms::level_rules;
use asp_checked::Checked;
use asp_defs::{SizeFault, Which};
use std::alloc::Global;

/// What is gathered of a program. Names borrow their bytes.
#[derive(Drop)]
pub struct Gathered<'a> {
    /// The universes of the levels from 0 to n + 1.
    pub universes: Vec<Constants<'a>>,
    /// The predicates of the levels from 0 to n + 1.
    pub signatures: Vec<Vec<Signature<'a>>>,
    /// How many atoms the last base has.
    pub atoms: u32,
}

/// How many atoms predicates have over so many constants, at most 10^18.
fn count_atoms(size: u64, signatures: &[Signature]) -> u64
    ensures { result ≡ min (sum_by (λ q. size ^ q.arity) (predicates_of signatures.now)) most_shown }
{
    let mut count = 0_u64;
    for signature in signatures {
        count = sum(count, power(size, signature.arity));
    }
    count
}

/// Refuses numbers of constants and of atoms that pass their limits.
fn within_limits(size: u64, total: u64) -> Result<(), SizeFault>
    ensures { MatchResult result (λ _. first_past size total ≡ None) (IsPast size total) }
{
    if size > Which::Constants.limit() {
        return Err(SizeFault::TooLarge(Which::Constants, size));
    }
    if total > Which::Atoms.limit() {
        return Err(SizeFault::TooLarge(Which::Atoms, total));
    }
    Ok(())
}

/// Gathers the universes and predicates of a program's levels, and counts its atoms.
///
/// # Errors
///
/// `TooLarge` with `Constants`, or else with `Atoms`, exactly where the last universe has more than 4,096 constants, or
/// the last base more than 262,144 atoms; the count is shown as at most 10^18. `NoMemory` where memory runs out.
pub fn gather(alloc: Global, checked: &Checked) -> Result<Gathered<'_>, SizeFault>
    ensures { MatchResult result (IsGathered checked.now) (IsBaseRefusal checked.now) }
{
    let levels = level_rules(alloc, checked.program())?;
    let universes = universes(alloc, levels.as_slice())?;
    let signatures = signatures(alloc, levels.as_slice())?;
    let last = &universes[levels.len()];
    let predicates = signatures[levels.len()].as_slice();
    let size = count(last);
    let total = count_atoms(size, predicates);
    within_limits(size, total)?;
    let atoms = total as u32;
    Ok(Gathered {
        universes,
        signatures,
        atoms,
    })
}

/// How many atoms the last base of a program has. They are counted, and none is made.
///
/// # Errors
///
/// `TooLarge` with `Constants`, or else with `Atoms`, exactly where the last universe has more than 4,096 constants, or
/// the last base more than 262,144 atoms; the count is shown as at most 10^18. `NoMemory` where memory runs out.
pub fn atom_count(alloc: Global, checked: &Checked) -> Result<u32, SizeFault>
    ensures { MatchResult result (IsFound checked.now (length (bases_of checked.now).atoms)) (IsBaseRefusal checked.now) }
{
    let gathered = gather(alloc, checked)?;
    Ok(gathered.atoms)
}
