// The levels of a game over sets of at most 20 atoms, where a set is a mask: bit a is set where atom a is a member.
ghost use Rattle.std.specs.Prelude.{◌≡◌, ◌<◌, ◌≤◌, ◌^◌, List, length, map, IsTrue, IfOk};
ghost use Rattle.std.specs.List.{list_all};
ghost use Rattle.asp_defs.specs.Games.{IsValid};
ghost use Rattle.asp_plain.specs.Levels.{IsMasked, AreMasked};
ghost use Rattle.asp_plain.specs.Masks.{most_masked, mask_of, masked, own_bits as own_bits_of, HaveSameMembers};
ghost use Rattle.asp_reduct.specs.Bounds.{are_below, is_rule_below, is_bound_below};

use crate::answers::answers;
use crate::bounds::masked_bounds;
use asp_defs::{Bound, Game, GroundRule, List, NoMemory};
use std::alloc::Global;

/// A rule whose lists of atoms are masks. Its fields stand in the order by which rules are sorted: what has no body
/// comes first, since it fails soonest.
#[derive(Clone, Copy, PartialEq, Eq, PartialOrd, Ord)]
pub struct MaskedRule {
    /// The atoms that its body wants true.
    pub positive: u32,
    /// The atoms that its body wants false.
    pub negative: u32,
    /// The atoms one of which has to be true where the body is.
    pub head: u32,
    /// Whether it leaves its head's one atom free.
    pub choice: bool,
}

/// A level of a game.
#[derive(Drop)]
pub struct Level {
    /// The bits of the atoms that the lower base lacks, in the order of the atoms.
    pub own: List<u32>,
    /// Whether each set over the base, at its mask, is an answer set of the rules and bounds with the atoms of the lower
    /// base that it has fixed.
    pub answers: List<bool>,
}

/// The atom's bit.
pub fn bit(atom: u32) -> u32
    requires { atom < most_masked }
    ensures { result ≡ 2 ^ atom }
{
    1u32 << atom
}

/// The set of the atoms.
pub fn mask(atoms: &[u32]) -> u32
    requires { IsTrue (are_below most_masked atoms.now) }
    ensures { result ≡ mask_of atoms.now }
{
    let mut mask = 0;
    for atom in atoms {
        mask |= bit(*atom);
    }
    mask
}

/// The rule as masks.
fn masked_rule(rule: &GroundRule) -> MaskedRule
    requires { IsTrue (is_rule_below most_masked rule.now) }
    ensures { result ≡ masked rule.now }
{
    MaskedRule {
        positive: mask(rule.pos.as_slice()),
        negative: mask(rule.neg.as_slice()),
        head: mask(rule.head.as_slice()),
        choice: rule.choice,
    }
}

/// Drops each rule that stands there twice.
pub fn drop_repeated(rules: &mut Vec<MaskedRule>)
    ensures { HaveSameMembers rules.new.items rules.old.items }
{
    rules.sort_unstable();
    rules.dedup();
}

/// The rules as masks, each once.
fn masked_rules(alloc: Global, rules: &[GroundRule]) -> Result<Vec<MaskedRule>, NoMemory>
    requires { IsTrue (list_all (is_rule_below most_masked) rules.now) }
    ensures { IfOk result (λ all. HaveSameMembers all.items (map masked rules.now)) }
{
    let mut all = Vec::new(alloc);
    for rule in rules {
        all.push(masked_rule(rule))?;
    }
    drop_repeated(&mut all);
    Ok(all)
}

/// The bits of the atoms of a base that the lower base lacks.
fn own_bits(alloc: Global, lower: &[u32], base: &[u32]) -> Result<List<u32>, NoMemory>
    requires lower { IsTrue (are_below most_masked lower.now) }
    requires base { IsTrue (are_below most_masked base.now) }
    ensures { IfOk result (λ bits. bits ≡ own_bits_of lower.now base.now) }
{
    let taken = mask(lower);
    let mut own = List::new(alloc);
    for atom in base {
        let bit = bit(*atom);
        if taken & bit == 0 {
            own.push(bit)?;
        }
    }
    Ok(own)
}

/// The level over a base, above a lower base.
fn masked_level(
    alloc: Global,
    lower: &[u32],
    base: &[u32],
    rules: &[GroundRule],
    bounds: &[Bound],
) -> Result<Level, NoMemory>
    requires lower { IsTrue (are_below most_masked lower.now) }
    requires base { IsTrue (are_below most_masked base.now) }
    requires rules { IsTrue (list_all (is_rule_below most_masked) rules.now) }
    requires bounds { IsTrue (list_all (is_bound_below most_masked) bounds.now) }
    ensures { IfOk result (IsMasked lower.now base.now rules.now bounds.now) }
{
    let own = own_bits(alloc, lower, base)?;
    let rules = masked_rules(alloc, rules)?;
    let bounds = masked_bounds(alloc, bounds)?;
    let answers = answers(
        alloc,
        rules.as_slice(),
        bounds.as_slice(),
        mask(lower),
        mask(base),
    )?;
    Ok(Level {
        own,
        answers: List::from_vec(answers),
    })
}

/// The levels of a game, the constraint part last.
pub fn masked_levels(alloc: Global, game: &Game) -> Result<Vec<Level>, NoMemory>
    requires valid { IsValid game.now }
    requires few { length game.now.bases.atoms ≤ most_masked }
    ensures masked { IfOk result (λ levels. AreMasked game.now 0 levels.items) }
    ensures number { IfOk result (λ levels. length levels.items ≡ length game.now.rules) }
{
    let members = game.bases.members.as_slice();
    let bounds = game.bounds.as_slice();
    let mut levels = Vec::new(alloc);
    for (below, rules) in game.rules.as_slice().iter().enumerate() {
        let lower = members[below].as_slice();
        let base = members[below + 1].as_slice();
        let level_bounds = bounds[below].as_slice();
        let level = masked_level(alloc, lower, base, rules.as_slice(), level_bounds)?;
        levels.push(level)?;
    }
    Ok(levels)
}
