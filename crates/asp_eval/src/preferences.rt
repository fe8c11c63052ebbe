//! Which of a constraint's false literals is taken.
ghost use Rattle.std.specs.Prelude.{◌≡◌, true, IsTrue, IfOk, length, MatchOption};
ghost use Rattle.std.specs.List.{list_all};
ghost use Rattle.asp_bits.specs.Places.{true_places};
ghost use Rattle.asp_defs.specs.Truth.{body_true as is_body_true};
ghost use Rattle.asp_reduct.specs.Bounds.{is_rule_below};
ghost use Rattle.asp_eval.specs.Covers.{is_false_in};

use asp_bits::Bits;
use asp_defs::{GroundRule, List, NoMemory, Quant};
use asp_entry::{Preferences, Standing, count_served, first_of_truth, last_standings, rank_base};
use std::alloc::Global;

/// The atom of the body's false literal that is taken first, or none where the body is true.
pub fn false_atom(rule: &GroundRule, set: &Bits, preferences: &Preferences<'_>) -> Option<u32>
    requires below { IsTrue (is_rule_below (length set.now) rule.now) }
    requires standings { length preferences.now.standings.now ≡ length preferences.now.kept.now }
    requires same_length { length preferences.now.kept.now ≡ length set.now }
    ensures { MatchOption result
        (is_body_true (true_places set.now) rule.now ≡ true)
        (λ a. is_false_in (true_places set.now) rule.now a ≡ true) }
{
    let best = first_of_truth(None, rule.pos.as_slice(), false, set, preferences);
    first_of_truth(best, rule.neg.as_slice(), true, set, preferences)
}

/// The rank of a level's base, of so many: an existential last level's own atoms come before all others.
fn rank(level: usize, bases: usize, quant: Quant) -> u32 {
    if quant == Quant::Exists && level.saturating_add(1) == bases {
        0
    } else {
        u32::try_from(level).unwrap_or(u32::MAX)
    }
}

/// Gives each atom the rank of the first base that has it.
fn rank_atoms(standings: &mut [Standing], bases: &[List<u32>], quant: Quant)
    ensures { length standings.new ≡ length standings.old }
{
    for level in (0..bases.len()).rev() {
        rank_base(
            standings,
            bases[level].as_slice(),
            rank(level, bases.len(), quant),
        );
    }
}

/// Where each atom stands behind levels with these bases, of which the last one has the quantifier. `NoMemory`: memory was
/// refused.
pub fn standings(
    alloc: Global,
    rules: &[GroundRule],
    bases: &[List<u32>],
    quant: Quant,
    set: &Bits,
) -> Result<Vec<Standing>, NoMemory>
    requires { IsTrue (list_all (is_rule_below (length set.now)) rules.now) }
    ensures { IfOk result (λ standings. length standings.items ≡ length set.now) }
{
    let mut standings = last_standings(alloc, set.len())?;
    rank_atoms(&mut standings, bases, quant);
    for rule in rules {
        count_served(&mut standings, rule.pos.as_slice(), false, set);
        count_served(&mut standings, rule.neg.as_slice(), true, set);
    }
    Ok(standings)
}
