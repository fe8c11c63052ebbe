//! The bases of a program.
ghost use Rattle.std.specs.Prelude.{◌≡◌, None, IfOk, MatchResult};
ghost use Rattle.asp_defs.specs.Bases.{bases_of};
ghost use Rattle.asp_atoms.specs.Vocabularies.{vocabulary_of};
ghost use Rattle.asp_atoms.specs.Answers.{IsFound, IsBaseRefusal, IsSearchable, base_too_large};

use crate::build::vocabulary;
use crate::members::members;
use crate::signatures::signatures;
use crate::terms::level_rules;
use crate::tuples::atoms;
use crate::vocabularies::Vocabulary;
use asp_checked::Checked;
use asp_defs::{Bases, NoMemory, SizeFault};
use std::alloc::Global;

/// The bases of a program whose vocabulary is known.
///
/// # Errors
///
/// Memory ran out.
pub fn bases_over(
    alloc: Global,
    checked: &Checked,
    vocabulary: &Vocabulary,
) -> Result<Bases, NoMemory>
    requires known { vocabulary.now ≡ vocabulary_of checked.now }
    requires small { base_too_large checked.now ≡ None }
    ensures bases { IfOk result (λ bases. bases ≡ bases_of checked.now) }
    ensures searchable { IfOk result IsSearchable }
{
    let levels = level_rules(alloc, checked.program())?;
    let signatures = signatures(alloc, levels.as_slice())?;
    let constants = vocabulary.constants.as_slice();
    let predicates = vocabulary.predicates.as_slice();
    let atoms = atoms(alloc, constants, predicates)?;
    let base = constants.len() as u32;
    let universes = vocabulary.universes.as_slice();
    let lists = signatures.as_slice();
    let members = members(alloc, base, predicates, universes, lists)?;
    Ok(Bases { atoms, members })
}

/// The bases of a program: the atoms of the last base ascending, and for each level from 0 to n + 1 the ascending
/// numbers of its atoms.
///
/// # Errors
///
/// `TooLarge` with `Constants`, or else with `Atoms`, exactly where the last universe has more than 4,096 constants, or
/// the last base more than 262,144 atoms; the count is shown as at most 10^18. `NoMemory` where memory runs out.
pub fn bases(alloc: Global, checked: &Checked) -> Result<Bases, SizeFault>
    ensures answers { MatchResult result (IsFound checked.now (bases_of checked.now)) (IsBaseRefusal checked.now) }
    ensures searchable { IfOk result IsSearchable }
{
    let vocabulary = vocabulary(alloc, checked)?;
    let bases = bases_over(alloc, checked, &vocabulary)?;
    Ok(bases)
}
