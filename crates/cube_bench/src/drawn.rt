//! Moves that are drawn.
ghost use Rattle.std.specs.Prelude.{◌≡◌, IsTrue, IfSome, length};
ghost use Rattle.asp_bits.specs.Places.{true_places};
ghost use Rattle.std.specs.List.{list_all};
ghost use Rattle.asp_defs.specs.Games.{IsValid, level_count, base, is_subset};
ghost use Rattle.asp_reduct.specs.Bounds.{is_rule_below};

use asp_bits::Bits;
use asp_defs::{Game, GroundRule};
use asp_reduct::{any_true, body_true};
use cube_tests::moves::{add, outer_atoms};
use cube_tests::series::Series;
use std::alloc::Global;

/// An outer move behind the last level in which one of so many atoms is true; none where memory is refused.
pub fn outer_move(alloc: Global, game: &Game, series: &mut Series, one_in: u32) -> Option<Bits>
    requires { IsValid game.now }
    ensures length { IfSome result (λ set. length set ≡ length game.now.bases.atoms) }
    ensures subset { IfSome result
        (λ set. IsTrue (is_subset (true_places set) (base game.now (level_count game.now)))) }
{
    let base = outer_atoms(game);
    let Ok(mut set) = Bits::new(alloc, game.bases.atoms.len() as u32) else {
        return None;
    };
    for place in 0..base.len() {
        let is_true = series.next() % one_in.max(1) == 0;
        add(&mut set, base, place, is_true);
    }
    Some(set)
}

/// Of a base of a game the atoms of which one in so many is true; none where memory is refused.
pub fn some_of(
    alloc: Global,
    count: u32,
    base: &[u32],
    series: &mut Series,
    one_in: u32,
) -> Option<Bits>
    ensures { IfSome result (λ set. length set ≡ count) }
{
    let Ok(mut set) = Bits::new(alloc, count) else {
        return None;
    };
    for atom in base {
        let is_true = series.next() % one_in.max(1) == 0;
        if *atom < set.len() {
            set.set(*atom, is_true);
        }
    }
    Some(set)
}

/// Adds the first head atom where the body is true and no head atom is; where the rule is a choice, if that is wanted.
fn derive(set: &mut Bits, rule: &GroundRule, chosen: bool) -> bool
    requires { IsTrue (is_rule_below (length set.old) rule.now) }
    ensures { length set.new ≡ length set.old }
{
    if (rule.choice && !chosen) || !body_true(rule, set) || any_true(rule.head.as_slice(), set) {
        return false;
    }
    match rule.head.as_slice().first() {
        Some(atom) if *atom < set.len() => {
            set.set(*atom, true);
            true
        }
        _ => false,
    }
}

/// Derives head atoms in the order of the rules, also of one choice in so many, or of none where this is 0.
fn derive_once(set: &mut Bits, rules: &[GroundRule], series: &mut Series, one_in: u32) -> bool
    requires { IsTrue (list_all (is_rule_below (length set.old)) rules.now) }
    ensures { length set.new ≡ length set.old }
{
    let mut is_more = false;
    for rule in rules {
        let chosen = one_in > 0 && series.next() % one_in.max(1) == 0;
        is_more = derive(set, rule, chosen) || is_more;
    }
    is_more
}

/// Adds atoms that the rules derive, over and over until there is none. It is a move where the rules don't negate own atoms.
pub fn derive_all(set: &mut Bits, rules: &[GroundRule], series: &mut Series, one_in: u32)
    requires { IsTrue (list_all (is_rule_below (length set.old)) rules.now) }
    ensures { length set.new ≡ length set.old }
{
    derive_once(set, rules, series, one_in);
    for _ in 0..rules.len() {
        if !derive_once(set, rules, series, 0) {
            return;
        }
    }
}
