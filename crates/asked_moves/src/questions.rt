//! Outer moves, regions and cubes, as the calls want them.
ghost use Rattle.std.specs.Prelude.{◌≡◌, ◌<◌, ◌≤◌, ◌&&◌, not, true, length, IsTrue, IfOk, IfSome, OnOk};
ghost use Rattle.std.specs.List.{list_all};
ghost use Rattle.asp_bits.specs.Places.{true_places};
ghost use Rattle.asp_defs.specs.Entries.{lit_true};
ghost use Rattle.asp_defs.specs.Games.{IsValid, level_count, base as base_of};
ghost use Rattle.asp_defs.specs.Interpretations.{holds};
ghost use Rattle.asp_game.specs.Questions.{is_outer, is_region as is_region_of, atoms_differ};
ghost use Rattle.asked_moves.specs.Asking.{IsWithin, IsCubeOf};

use asp_bits::Bits;
use asp_defs::{Game, Lit, NoMemory};
use std::alloc::Global;

/// Whether the mask has the atom.
pub fn has(mask: u32, atom: u32) -> bool {
    atom < 32 && (mask >> atom) % 2 == 1
}

/// The atoms of a level's base.
pub fn base(game: &Game, level: u32) -> &[u32]
    requires valid { IsValid game.now }
    requires last { level ≤ level_count game.now }
    ensures { result.now ≡ base_of game.now level }
{
    game.bases.members.as_slice()[level as usize].as_slice()
}

/// Adds the atom at a place of the base, where it is wanted.
fn add(set: &mut Bits, base: &[u32], place: usize, wanted: bool)
    requires { IsWithin (true_places set.old) base.now }
    ensures within { IsWithin (true_places set.new) base.now }
    ensures length { length set.new ≡ length set.old }
{
    if !wanted || place >= base.len() {
        return;
    }
    let atom = base[place];
    if atom < set.len() {
        set.set(atom, true);
    }
}

/// The outer move of a level with the atoms of the mask that the base below has; none where memory is refused.
pub fn outer_move(alloc: Global, game: &Game, level: u32, mask: u32) -> Option<Bits>
    requires valid { IsValid game.now }
    requires first { 1 ≤ level }
    requires last { level ≤ level_count game.now }
    ensures length { IfSome result (λ set. length set ≡ length game.now.bases.atoms) }
    ensures outer { IfSome result (λ set. IsTrue (is_outer game.now level (true_places set))) }
{
    let lower = base(game, level - 1);
    let Ok(mut set) = Bits::new(alloc, game.bases.atoms.len() as u32) else {
        return None;
    };
    for place in 0..lower.len() {
        add(&mut set, lower, place, has(mask, lower[place]));
    }
    Some(set)
}

/// Whether the base has the atom.
fn is_in(base: &[u32], atom: u32) -> bool
    ensures { result ≡ holds base.now atom }
{
    base.iter().any(|other| *other == atom)
}

/// Whether the base has the atoms of all literals.
pub fn are_in(base: &[u32], cube: &[Lit]) -> bool
    ensures { result ≡ list_all (λ l. holds base.now l.atom) cube.now }
{
    cube.iter().all(|literal| is_in(base, literal.atom))
}

fn is_own(lower: &[u32], upper: &[u32], literal: &Lit) -> bool
    ensures { result ≡ (holds upper.now literal.now.atom && not (holds lower.now literal.now.atom)) }
{
    is_in(upper, literal.atom) && !is_in(lower, literal.atom)
}

fn are_own(lower: &[u32], upper: &[u32], region: &[Lit]) -> bool
    ensures { result ≡ list_all (λ l. holds upper.now l.atom && not (holds lower.now l.atom)) region.now }
{
    region.iter().all(|literal| is_own(lower, upper, literal))
}

/// Whether no atom stands twice, in at most two literals.
fn differ(region: &[Lit]) -> bool
    ensures { result ≡ true → atoms_differ region.now ≡ true }
{
    match region {
        [] | [_] => true,
        [first, second] => first.atom != second.atom,
        _ => false,
    }
}

/// Whether at most two literals make a region of the level.
pub fn is_region(game: &Game, level: u32, region: &[Lit]) -> bool
    requires valid { IsValid game.now }
    requires first { 1 ≤ level }
    requires last { level ≤ level_count game.now }
    ensures { result ≡ true → is_region_of game.now level region.now ≡ true }
{
    let lower = base(game, level - 1);
    let upper = base(game, level);
    are_own(lower, upper, region) && differ(region)
}

/// The literal of an atom that is true in the set.
fn literal(set: &Bits, atom: u32) -> Lit
    requires { atom < length set.now }
    ensures atom { result.atom ≡ atom }
    ensures is { lit_true (true_places set.now) result ≡ true }
{
    Lit {
        atom,
        positive: set.get(atom),
    }
}

/// Appends the literal of an atom of the base that is true in the set.
fn put_literal(cube: &mut Vec<Lit>, base: &[u32], set: &Bits, atom: u32) -> Result<(), NoMemory>
    requires member { holds base.now atom ≡ true }
    requires cube { IsCubeOf base.now (true_places set.now) cube.old.items }
    ensures { OnOk result (IsCubeOf base.now (true_places set.now) cube.new.items) }
{
    if atom >= set.len() {
        return Ok(());
    }
    cube.push(literal(set, atom))?;
    Ok(())
}

/// The literals of a base that are true in a set.
pub fn literals(alloc: Global, base: &[u32], set: &Bits) -> Result<Vec<Lit>, NoMemory>
    ensures { IfOk result (λ cube. IsCubeOf base.now (true_places set.now) cube.items) }
{
    let mut cube = Vec::new(alloc);
    for atom in base {
        put_literal(&mut cube, base, set, *atom)?;
    }
    Ok(cube)
}
