//! Whether an interpretation is an answer set of rules with free choices.

ghost use Rattle.std.specs.Prelude.{◌≡◌, ℕ, ◌<◌, ◌≤◌, ◌^◌, ◌&&◌, true, false, List, [], ◌∷◌, length, IsTrue, IfOk, OnOk, Ok, Err};
ghost use Rattle.std.specs.List.{list_any, list_all};
ghost use Rattle.asp_bits.specs.Places.{true_places};
ghost use Rattle.asp_defs.specs.declared.faults.Unknown.{Unknown};
ghost use Rattle.asp_defs.specs.AnswerSets.{is_answer_set};
ghost use Rattle.asp_defs.specs.Truth.{is_model};
ghost use Rattle.asp_defs.specs.declared.faults.Which.TheVariants as which;
ghost use Rattle.asp_defs.specs.Limits.{limit};
ghost use Rattle.asp_reduct.specs.Bounds.{is_rule_below};
ghost use Rattle.asp_search.specs.State.{IsFresh};
ghost use Rattle.asp_minimal.specs.Choices.{with_choices, bound_atoms, Refutes};
ghost use Rattle.asp_minimal.specs.Demands.{allows, Demands, HasBegun};
ghost use Rattle.asp_minimal.specs.Numbers.{written, AreNumbers, leaves};

use crate::alone::unsupported;
use crate::clauses::{add_leaving, add_rules};
use crate::numbers::{leaving, numbered, write};
use crate::settling::settled;
use asp_bits::Bits;
use asp_defs::{Give, GroundRule, Kind, List, NoMemory, Unknown};
use asp_search::{Outcome, Search, SearchFault};
use std::alloc::Global;

/// Whether an interpretation is an answer set.
#[derive(Debug, Drop)]
pub enum Minimality {
    /// It is one.
    Yes,
    /// It is none: these of its atoms, ascending, are an unfounded set in it that is not empty and has no free atom.
    No(List<u32>),
}

/// The true atoms that aren't free.
pub fn bound(alloc: Global, set: &Bits, free: &[u32]) -> Result<Bits, NoMemory>
    ensures { IfOk result (λ part. part ≡ written false set.now free.now) }
{
    let mut part = set.copy(alloc)?;
    write(&mut part, free, false);
    Ok(part)
}

/// Begins the search and adds all clauses.
fn prepare(
    alloc: Global,
    search: &mut Search,
    rules: &[GroundRule],
    set: &Bits,
    part: &Bits,
    numbers: &[Option<u32>],
) -> Result<(), NoMemory>
    requires below { IsTrue (list_all (is_rule_below (length set.now)) rules.now) }
    requires same_length { length part.now ≡ length set.now }
    requires numbered { length numbers.now ≡ length set.now }
    requires numbers { AreNumbers search.old.atoms numbers.now }
    requires small { search.old.atoms ≤ limit which.Atoms }
    requires firm { search.old.firm ≡ search.old.clauses }
    ensures demands { OnOk result (Demands search.old search.new
        (λ v. list_any (leaves v) numbers.now
        && list_all (allows (true_places set.now) (true_places part.now) numbers.now v) rules.now)) }
    ensures begun { OnOk result (HasBegun search.new) }
{
    search.begin(alloc, &[])?;
    add_leaving(alloc, search, numbers)?;
    add_rules(alloc, search, rules, set, part, numbers)
}

/// Whether `set` is an answer set of the rules with a free choice on each atom of `free`.
///
/// `search` is a new one with an atom for each true atom of the set that isn't in `free`; it is given the clauses of the
/// smaller models. Where an atom alone is an unfounded set, the answer is one such atom, and the search isn't asked, nor is it where
/// no rule has two true head atoms. The time is linear in the lengths of the rules, of `free` and of the set, beside the search's own.
///
/// `Spent`: the search has placed as many literals as its budget allows; the answer names `level` and that budget.
/// `NoMemory`: memory was refused.
pub fn minimal(
    alloc: Global,
    rules: &[GroundRule],
    free: &[u32],
    set: &Bits,
    level: u32,
    search: &mut Search,
) -> Result<Minimality, Give>
    requires below { IsTrue (list_all (is_rule_below (length set.now)) rules.now) }
    requires model { is_model (true_places set.now) rules.now ≡ true }
    requires fresh { IsFresh search.old (length (bound_atoms free.now (true_places set.now))) search.old.budget }
    ensures yes { result ≡ Ok Minimality.Yes
        → is_answer_set (with_choices rules.now free.now) (true_places set.now) ≡ true }
    ensures no { (u : List ℕ) → result ≡ Ok (Minimality.No u)
        → is_answer_set (with_choices rules.now free.now) (true_places set.now) ≡ false }
    ensures unfounded { (u : List ℕ) → result ≡ Ok (Minimality.No u) → Refutes rules.now free.now (true_places set.now) u }
    ensures alone { (u : List ℕ) → (a : ℕ) → result ≡ Ok (Minimality.No u)
        → Refutes rules.now free.now (true_places set.now) (a ∷ []) → length u ≡ 1 }

    // The count stands for the cause, and is below 3 to the power of the atoms.
    ensures spent { (unknown : Unknown) → result ≡ Err (Give.Spent unknown)
        → (unknown ≡ record { kind = Kind.Minimal; level = level; budget = search.old.budget })
        × (search.new.count ≡ search.old.budget) × (search.new.budget ≡ search.old.budget) × (search.new.atoms ≡ search.old.atoms)
        × (search.old.budget < 3 ^ length (bound_atoms free.now (true_places set.now))) }
{
    let part = bound(alloc, set, free)?;
    if let Some(atom) = unsupported(alloc, rules, set, &part)? {
        return Ok(Minimality::No(List::from_slice(alloc, &[atom])?));
    }
    if let Some(answer) = settled(alloc, rules, set, &part)? {
        return Ok(answer);
    }
    let numbers = numbered(alloc, &part)?;
    prepare(alloc, search, rules, set, &part, numbers.as_slice())?;
    match search.next(alloc, false) {
        Ok(Outcome::Found) => {
            let atoms = leaving(alloc, search, numbers.as_slice(), set.len())?;
            Ok(Minimality::No(atoms))
        }
        Ok(Outcome::Core(_)) => Ok(Minimality::Yes),
        Err(SearchFault::Spent) => Err(Give::Spent(Unknown {
            kind: Kind::Minimal,
            level,
            budget: search.budget(),
        })),
        Err(SearchFault::NoMemory) => Err(Give::NoMemory),
    }
}
