// The value of a set, by the tables of the levels' answer sets.
ghost use Rattle.std.specs.Prelude.{◌≡◌};
ghost use Rattle.asp_plain.specs.Levels.{has_answer as has_answer_in, is_claimed, masked_value, settling};
ghost use Rattle.asp_plain.specs.Masks.{candidates};

use crate::masks::Level;
use asp_defs::Quant;

/// Whether the set is an answer set of the level, with the atoms of the lower base fixed as it has them.
pub fn has_answer(level: &Level, set: u32) -> bool
    ensures { result ≡ has_answer_in level.now set }
{
    let known = level.answers.as_slice().get(set as usize);
    known.copied().unwrap_or(false)
}

/// The verdict of one answer set that settles the first quantifier's claim: true, but for a universal one. The
/// constraint part asks for an answer set, as an existential level does.
fn settles(quants: &[Quant]) -> bool
    ensures { result ≡ settling quants.now }
{
    !matches!(quants.first(), Some(Quant::Forall))
}

/// Whether the first quantifier's claim holds of the answer sets of the first level among those that have `set` and
/// some of the bits `rest` beside it. It ends at the first one that settles it.
fn claims(quants: &[Quant], levels: &[Level], rest: &[u32], set: u32) -> bool
    ensures { result ≡ is_claimed quants.now levels.now (candidates set rest.now) }
{
    let Some((level, inner)) = levels.split_first() else {
        return true;
    };
    if let Some((bit, others)) = rest.split_first() {
        let without = claims(quants, levels, others, set);
        if without == settles(quants) {
            return without;
        }
        return claims(quants, levels, others, set | *bit);
    }
    if !has_answer(level, set) {
        return !settles(quants);
    }
    let Some((_, behind)) = quants.split_first() else {
        return true;
    };
    let Some(next) = inner.first() else {
        return true;
    };
    claims(behind, inner, next.own.as_slice(), set)
}

/// The value of an outer move at the first of the levels.
pub fn value(quants: &[Quant], levels: &[Level], outer: u32) -> bool
    ensures { result ≡ masked_value quants.now levels.now outer }
{
    match levels.first() {
        Some(level) => claims(quants, levels, level.own.as_slice(), outer),
        None => true,
    }
}
