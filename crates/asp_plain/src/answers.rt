// The answer sets of rules with bounds, as a table over all sets of a base: at each set's mask, whether it is one.
//
// The search decides one atom after another, each in both ways. Its sets are a cube: those that have all atoms of `set`
// and beside them only atoms of `rest`. First the sets leave the table that aren't models, and those that don't meet the
// bounds. Then those leave it that aren't minimal models of their reduct: a second cube has the candidates for a smaller
// model, which have all atoms of `small` and beside them only atoms of `loose`. The next atom is one of a rule with the
// fewest atoms, so that conflicts show early. An open atom of that rule's positive body or head is decided in the
// candidate alone, since a candidate that breaks the rule then fails for all sets of the cube at once; any other atom is
// decided in the set.
ghost use Rattle.std.specs.Prelude.{◌≡◌, ◌<◌, true, false, not, length, replicate, IfOk, OnOk};
ghost use Rattle.std.specs.Int.RustNames.{bit_and, bit_or};
ghost use Rattle.asp_plain.specs.Cubes.{rule_atoms, Sifted, HasNone, is_spared, is_beaten, HoldsAnswers};
ghost use Rattle.asp_plain.specs.Masks.{IsBitOf, is_model_of_reduct};

use crate::bounds::{MaskedBound, keep_met};
use crate::left::{atoms, rules_left, shortest};
use crate::masks::MaskedRule;
use asp_defs::NoMemory;
use std::alloc::Global;

/// The bit of one of the atoms.
pub fn first_bit(atoms: u32) -> u32
    requires { 0 < atoms }
    ensures { IsBitOf atoms result }
{
    1u32 << atoms.trailing_zeros()
}

/// Whether the table has a set of the cube. The contract says what false means; a needless true would only cost time.
fn has_some(table: &[bool], set: u32, rest: u32) -> bool
    requires apart { bit_and set rest ≡ 0 }
    requires inside { bit_or set rest < length table.now }
    ensures { result ≡ false → HasNone set rest table.now }
{
    if rest == 0 {
        return table[set as usize];
    }
    let bit = first_bit(rest);
    has_some(table, set, rest ^ bit) || has_some(table, set | bit, rest ^ bit)
}

/// Takes the sets of the cube out of the table; where some are spared, these are those that have beside `set` only
/// atoms of `lower`.
fn clear(table: &mut [bool], lower: u32, set: u32, rest: u32, spared: bool)
    requires apart { bit_and set rest ≡ 0 }
    requires inside { bit_or set rest < length table.now }
    ensures { Sifted set rest (is_spared spared lower set rest) table.old table.new }
{
    if rest == 0 {
        if !spared {
            table[set as usize] = false;
        }
        return;
    }
    let bit = first_bit(rest);
    clear(table, lower, set, rest ^ bit, spared);
    clear(
        table,
        lower,
        set | bit,
        rest ^ bit,
        spared && bit & lower != 0,
    );
}

/// Takes the sets of the cube out of the table that aren't models of the rules.
fn keep_models(
    alloc: Global,
    rules: &[MaskedRule],
    set: u32,
    rest: u32,
    table: &mut [bool],
) -> Result<(), NoMemory>
    requires apart { bit_and set rest ≡ 0 }
    requires inside { bit_or set rest < length table.now }
    ensures { OnOk result (Sifted set rest (λ s. is_model_of_reduct rules.now s s) table.old table.new) }
{
    let Some(left) = rules_left(alloc, rules, set, set, rest, rest)? else {
        clear(table, 0, set, rest, false);
        return Ok(());
    };
    let Some(rule) = shortest(left.as_slice()) else {
        return Ok(());
    };
    let bit = first_bit(atoms(&rule));
    keep_models(alloc, left.as_slice(), set, rest ^ bit, table)?;
    keep_models(alloc, left.as_slice(), set | bit, rest ^ bit, table)
}

/// The bit of an atom of the rule: one of its positive body or its head that is open in the candidate, where there is
/// one. The contract says only that it is one of the rule's: which one it is changes the order of decisions, and no
/// answer.
fn chosen(rule: &MaskedRule, loose: u32) -> u32
    requires { 0 < rule_atoms rule.now }
    ensures { IsBitOf (rule_atoms rule.now) result }
{
    let wanted = (rule.positive | rule.head) & loose;
    first_bit(if wanted == 0 { atoms(rule) } else { wanted })
}

/// Takes the sets of the cube out of the table that aren't minimal: those with a smaller model of their reduct. The
/// smaller model has `small`, those atoms of the set that are in `loose` and in `lower`, and beside these only atoms of
/// the set that are in `loose`.
fn remove_non_minimal(
    alloc: Global,
    rules: &[MaskedRule],
    lower: u32,
    set: u32,
    small: u32,
    rest: u32,
    loose: u32,
    table: &mut [bool],
) -> Result<(), NoMemory>
    requires apart { bit_and set rest ≡ 0 }
    requires part { bit_and small set ≡ small }
    requires free { bit_and small loose ≡ 0 }
    requires within { bit_and loose (bit_or set rest) ≡ loose }
    requires settled { bit_and (bit_and loose lower) set ≡ 0 }
    requires inside { bit_or set rest < length table.now }
    ensures { OnOk result (Sifted set rest (λ s. not (is_beaten rules.now lower small loose s)) table.old table.new) }
{
    if small | loose == set | rest && loose & lower == loose {
        return Ok(());
    }
    if !has_some(table, set, rest) {
        return Ok(());
    }
    let Some(left) = rules_left(alloc, rules, set, small, rest, loose)? else {
        return Ok(());
    };
    let kept = left.as_slice();
    let Some(rule) = shortest(kept) else {
        clear(table, lower & loose, set, rest, small == set);
        return Ok(());
    };
    let bit = chosen(&rule, loose);
    if bit & loose != 0 && bit & lower == 0 {
        // Left out of the candidate, the atom stays open in the set.
        let fewer = loose ^ bit;
        remove_non_minimal(alloc, kept, lower, set, small, rest, fewer, table)?;
        return remove_non_minimal(
            alloc,
            kept,
            lower,
            set | bit,
            small | bit,
            (rest | bit) ^ bit,
            fewer,
            table,
        );
    }
    // An atom of the lower base is decided in both at once, another in the set alone.
    let both = bit & loose;
    let fewer = loose ^ both;
    let others = rest ^ bit;
    remove_non_minimal(alloc, kept, lower, set, small, others, fewer, table)?;
    remove_non_minimal(
        alloc,
        kept,
        lower,
        set | bit,
        small | both,
        others,
        fewer,
        table,
    )
}

/// A table of so many sets that has them all.
fn all_true(alloc: Global, count: usize) -> Result<Vec<bool>, NoMemory>
    ensures { IfOk result (λ table. table.items ≡ replicate count true) }
{
    Ok(vec![in alloc; true; count]?)
}

/// Whether each set over the base is an answer set of the rules and bounds with its atoms of the lower base fixed, at its
/// mask. The models are found first, then those among them that meet the bounds, and then the minimal ones among these.
pub fn answers(
    alloc: Global,
    rules: &[MaskedRule],
    bounds: &[MaskedBound],
    lower: u32,
    base: u32,
) -> Result<Vec<bool>, NoMemory>
    ensures { IfOk result (λ table. HoldsAnswers rules.now bounds.now lower base table.items) }
{
    let mut table = all_true(alloc, base as usize + 1)?;
    keep_models(alloc, rules, 0, base, table.as_mut_slice())?;
    keep_met(bounds, 0, base, table.as_mut_slice());
    remove_non_minimal(alloc, rules, lower, 0, 0, base, base, table.as_mut_slice())?;
    Ok(table)
}
