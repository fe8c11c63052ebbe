//! Whether a set is a move of a level.
ghost use Rattle.std.specs.Prelude.{ℕ, ◌≡◌, ◌+◌, ◌-◌, ◌<◌, ◌≤◌, ◌&&◌, not, IsTrue, length};
ghost use Rattle.std.specs.List.{list_all};
ghost use Rattle.asp_bits.specs.Places.{true_places};
ghost use Rattle.asp_defs.specs.Lists.{IsIn};
ghost use Rattle.asp_defs.specs.Interpretations.{holds};
ghost use Rattle.asp_defs.specs.Truth.{is_model};
ghost use Rattle.asp_defs.specs.Games.{IsValid, level_count, base, is_subset};
ghost use Rattle.asp_defs.specs.Values.{moves};
ghost use Rattle.asp_reduct.specs.Bounds.{are_below, is_rule_below};
ghost use Rattle.asp_entry.specs.Marks.{IsPlaces};
ghost use Rattle.asp_eval.specs.Covering.{IsWithin};
ghost use Rattle.cube_tests.specs.Moves.{AreFounded, AgreeOn};

use crate::meeting::are_met;
use asp_bits::Bits;
use asp_defs::{Game, GroundRule};
use asp_entry::places;
use asp_explain::{base_of, found_atoms, level_bounds, level_rules};
use asp_reduct::satisfies;
use std::alloc::Global;

/// Whether the atom is in the first set and not in the second one.
fn is_lacking(atom: u32, set: &Bits, other: &Bits) -> bool
    requires below { atom < length set.now }
    requires same_length { length other.now ≡ length set.now }
    ensures { result ≡
        (holds (true_places set.now) atom && not (holds (true_places other.now) atom)) }
{
    let inside = set.get(atom);
    let also = other.get(atom);
    inside && !also
}

/// Whether each atom of the first set is one of the second.
fn is_within(set: &Bits, other: &Bits) -> bool
    requires { length other.now ≡ length set.now }
    ensures { IsTrue result → IsWithin (true_places set.now) (true_places other.now) }
{
    for atom in 0..set.len() {
        if is_lacking(atom, set, other) {
            return false;
        }
    }
    true
}

/// Whether the sets agree on the atom.
fn is_alike(atom: u32, first: &Bits, second: &Bits) -> bool
    requires below { atom < length first.now }
    requires same_length { length second.now ≡ length first.now }
    ensures { IsTrue result →
        holds (true_places second.now) atom ≡ holds (true_places first.now) atom }
{
    let one = first.get(atom);
    let other = second.get(atom);
    other == one
}

/// Whether the sets agree on the atoms.
fn are_alike(atoms: &[u32], first: &Bits, second: &Bits) -> bool
    requires below { IsTrue (are_below (length first.now) atoms.now) }
    requires same_length { length second.now ≡ length first.now }
    ensures { IsTrue result →
        AgreeOn atoms.now (true_places first.now) (true_places second.now) }
{
    for atom in atoms {
        if !is_alike(*atom, first, second) {
            return false;
        }
    }
    true
}

/// Whether the set satisfies the rules.
fn are_satisfied(rules: &[GroundRule], set: &Bits) -> bool
    requires { IsTrue (list_all (is_rule_below (length set.now)) rules.now) }
    ensures { result ≡ is_model (true_places set.now) rules.now }
{
    for rule in rules {
        if !satisfies(rule, set) {
            return false;
        }
    }
    true
}

/// Whether each set of the set's own atoms, those that are no outer ones, is supported; no where memory is refused.
fn are_founded(alloc: Global, rules: &[GroundRule], set: &Bits, outer: &Bits) -> bool
    requires below { IsTrue (list_all (is_rule_below (length outer.now)) rules.now) }
    requires set { length set.now ≡ length outer.now }
    ensures { IsTrue result →
        AreFounded rules.now (true_places outer.now) (true_places set.now) }
{
    let Ok(mut marks) = Bits::new(alloc, outer.len()) else {
        return false;
    };
    let Ok(mut founded) = outer.copy(alloc) else {
        return false;
    };
    match found_atoms(alloc, &mut marks, &mut founded, rules, set, outer) {
        Ok(()) => is_within(set, &founded),
        Err(_) => false,
    }
}

/// Whether the set is over the level's base, and over these outer atoms as the outer move is.
fn is_over(
    game: &Game,
    level: u32,
    outer_move: &Bits,
    set: &Bits,
    outer: &Bits,
    over: &Bits,
) -> bool
    requires valid { IsValid game.now }
    requires first { 1 ≤ level }
    requires last { level ≤ level_count game.now + 1 }
    requires outer_length { length outer_move.now ≡ length game.now.bases.atoms }
    requires set_length { length set.now ≡ length game.now.bases.atoms }
    requires outer { IsPlaces (base game.now (level - 1)) (length game.now.bases.atoms) outer.now }
    requires over { IsPlaces (base game.now level) (length game.now.bases.atoms) over.now }
    ensures outer { IsTrue result →
        IsWithin (true_places outer_move.now) (true_places outer.now) }
    ensures over { IsTrue result → IsWithin (true_places set.now) (true_places over.now) }
    ensures alike { IsTrue result →
        AgreeOn (base game.now (level - 1)) (true_places outer_move.now) (true_places set.now) }
{
    is_within(outer_move, outer)
        && is_within(set, over)
        && are_alike(base_of(game, level - 1), outer_move, set)
}

/// Whether the set is a move of the level after the outer move; no where memory is refused.
pub fn is_move(alloc: Global, game: &Game, level: u32, outer_move: &Bits, set: &Bits) -> bool
    requires valid { IsValid game.now }
    requires first { 1 ≤ level }
    requires last { level ≤ level_count game.now + 1 }
    requires outer_length { length outer_move.now ≡ length game.now.bases.atoms }
    requires set_length { length set.now ≡ length game.now.bases.atoms }
    ensures outer { IsTrue result →
        IsTrue (is_subset (true_places outer_move.now) (base game.now (level - 1))) }
    ensures over { IsTrue result → IsTrue (is_subset (true_places set.now) (base game.now level)) }
    ensures is_move { IsTrue result →
        IsIn (true_places set.now) (moves game.now level (true_places outer_move.now)) }
{
    let Ok(outer) = places(alloc, base_of(game, level - 1), set.len()) else {
        return false;
    };
    let Ok(over) = places(alloc, base_of(game, level), set.len()) else {
        return false;
    };
    let rules = level_rules(game, level);
    if !is_over(game, level, outer_move, set, &outer, &over) {
        return false;
    }
    if !are_satisfied(rules, set) {
        return false;
    }
    if !are_met(level_bounds(game, level), set) {
        return false;
    }
    are_founded(alloc, rules, set, &outer)
}
