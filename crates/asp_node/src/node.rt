//! The search of a region.
ghost use Rattle.std.specs.Prelude.{◌≡◌, ◌≢◌, ◌≤◌, ◌+◌, ◌-◌, ◌<◌, ℕ, List, [], length, IsTrue, Ok, Err, IfOk, Some, None};
ghost use Rattle.asp_bits.specs.Places.{true_places};
ghost use Rattle.asp_defs.specs.declared.faults.Give.TheVariants as gives;
ghost use Rattle.asp_defs.specs.declared.faults.Unknown.{Unknown};
ghost use Rattle.asp_defs.specs.declared.ground.Lit.{Lit};
ghost use Rattle.asp_defs.specs.Lists.{IsIn};
ghost use Rattle.asp_defs.specs.Games.{level_count};
ghost use Rattle.asp_defs.specs.History.{is_legal};
ghost use Rattle.asp_defs.specs.Values.{moves as moves_of};
ghost use Rattle.asp_store.specs.Shelves.{GoesOn, IsHolding};
ghost use Rattle.asp_node.specs.declared.place.RegionEnd.TheVariants as ends;
ghost use Rattle.asp_node.specs.Children.{ChildGoesOn};
ghost use Rattle.asp_node.specs.Causes.{IsStoreSpent, IsRegionSpent};
ghost use Rattle.asp_node.specs.Ends.{winning_at, IsExhausted};
ghost use Rattle.asp_node.specs.Places.{IsPlace, FitTogether};
ghost use Rattle.asp_node.specs.Works.{MovesGoOn, Advances, IsWon, IsAskedFor, open_count};

use crate::adding::{add_entry, true_atoms};
use crate::asking::ask;
use crate::child::Child;
use crate::place::{Place, RegionEnd};
use asp_bits::Bits;
use asp_defs::{Game, Give, Quant};
use asp_entry::{Cube, Entry};
use asp_explain::move_cube;
use asp_game::{Gate, Moves, Point, Step};
use asp_store::Shelf;
use std::alloc::Global;

/// The verdict that one move of a level decides: true for exists, false for forall.
pub fn winning_verdict(game: &Game, level: u32) -> bool
    requires first { 1 ≤ level }
    requires last { level ≤ level_count game.now }
    ensures { result ≡ winning_at game.now level }
{
    match game.quants.as_slice()[level as usize - 1] {
        Quant::Exists => true,
        Quant::Forall => false,
    }
}

/// Adds an entry of the place's level that the winning entry `won` of the next level justifies: after each outer move in its
/// cube there is a move that `won` holds, as it holds `set`. The answer is the position of an entry that holds the outer move.
fn decide<S: Shelf>(
    alloc: Global,
    shelf: &mut S,
    place: &Place<'_>,
    set: &Bits,
    won: Entry,
) -> Result<u32, Give>
    requires place { IsPlace place.now.game.now place.now.level place.now.outer.now place.now.region.now }
    requires game { (S.state shelf.old).game ≡ place.now.game.now }
    requires legal { IsTrue (is_legal place.now.game.now (S.state shelf.old).seen) }
    requires places { length set.now ≡ length place.now.game.now.bases.atoms }
    requires set { IsIn (true_places set.now) (moves_of place.now.game.now place.now.level (true_places place.now.outer.now)) }
    requires won { IsWon place.now.game.now place.now.level (S.state shelf.old).seen (true_places set.now) won }
    ensures goes_on { GoesOn (S.state shelf.old) (S.state shelf.new) }
    ensures held { (at : ℕ) → result ≡ Ok at
        → IsHolding (S.state shelf.new).seen place.now.level (true_places place.now.outer.now) at }
    ensures spent { (unknown : Unknown) → result ≡ Err (gives.Spent unknown)
        → IsStoreSpent (S.state shelf.old) (S.state shelf.new) unknown }
{
    let cube = move_cube(alloc, place.game, place.level, place.outer, set, &won.cube)?;
    let seed = true_atoms(alloc, place.outer)?;
    let entry = Entry {
        level: place.level,
        cube,
        verdict: won.verdict,
        seed,
    };
    add_entry(alloc, shelf, entry)
}

/// The next step of a region's search: its end, or none where a move was refuted and is left out for good.
fn try_next<S: Shelf, M: Moves, C: Child<S>, G: Gate>(
    alloc: Global,
    shelf: &mut S,
    moves: &mut M,
    child: &mut C,
    gate: &G,
    place: &Place<'_>,
) -> Result<Option<RegionEnd>, Give>
    requires place { IsPlace place.now.game.now place.now.level place.now.outer.now place.now.region.now }
    requires fit { FitTogether place.now.game.now place.now.level (S.state shelf.old) (M.state moves.old) (C.state child.old) }
    requires asked { IsAskedFor (M.state moves.old) (true_places place.now.outer.now) place.now.region.now }
    ensures advances { Advances place.now.game.now place.now.level (S.state shelf.old) (S.state shelf.new)
        (M.state moves.old) (M.state moves.new) (C.state child.old) (C.state child.new) }
    ensures decided { (at : ℕ) → result ≡ Ok (Some (ends.Decided at))
        → IsHolding (S.state shelf.new).seen place.now.level (true_places place.now.outer.now) at }
    ensures exhausted { (cube : List Lit) → result ≡ Ok (Some (ends.Exhausted cube))
        → IsExhausted place.now.game.now place.now.level (true_places place.now.outer.now) place.now.region.now
        (S.state shelf.new).seen cube }
    ensures fewer { result ≡ Ok None
        → open_count (M.state moves.new) (true_places place.now.outer.now) place.now.region.now
        < open_count (M.state moves.old) (true_places place.now.outer.now) place.now.region.now }
    ensures spent { (unknown : Unknown) → result ≡ Err (gives.Spent unknown)
        → IsRegionSpent (S.state shelf.old) (S.state shelf.new) (M.state moves.old) (M.state moves.new)
        (C.state child.old) (C.state child.new) unknown }
{
    let set = match moves.next(alloc)? {
        Step::Core(core) => {
            let cube = Cube::from_lits(alloc, core.as_slice())?;
            return Ok(Some(RegionEnd::Exhausted(cube)));
        }
        Step::Found(set) => set,
    };
    let point = Point {
        level: place.level,
        member: place.member,
    };
    let at = ask(alloc, shelf, child, gate, &point, &set)?;
    let answer = shelf.copy(alloc, at)?;
    if answer.verdict == winning_verdict(place.game, place.level) {
        let at = decide(alloc, shelf, place, &set, answer)?;
        return Ok(Some(RegionEnd::Decided(at)));
    }
    moves.keep(alloc, answer.cube.lits())?;
    Ok(None)
}

/// Searches a region: asks the next level for the verdict on one move after another, until one decides the node or all moves in
/// the region are refuted.
///
/// A refuted move is left out with all moves that its entry's cube holds, for good, and the question is put anew. `Spent`: a
/// search placed as many literals as the budget allows, or the cells didn't suffice for an entry. `NoMemory`: memory was
/// refused.
pub fn region<S: Shelf, M: Moves, C: Child<S>, G: Gate>(
    alloc: Global,
    shelf: &mut S,
    moves: &mut M,
    child: &mut C,
    gate: &G,
    place: &Place<'_>,
) -> Result<RegionEnd, Give>
    requires place { IsPlace place.now.game.now place.now.level place.now.outer.now place.now.region.now }
    requires fit { FitTogether place.now.game.now place.now.level (S.state shelf.old) (M.state moves.old) (C.state child.old) }
    ensures shelf { GoesOn (S.state shelf.old) (S.state shelf.new) }
    ensures moves { MovesGoOn (M.state moves.old) (M.state moves.new) }
    ensures child { ChildGoesOn (C.state child.old) (C.state child.new) }
    ensures fit { FitTogether place.now.game.now place.now.level (S.state shelf.new) (M.state moves.new) (C.state child.new) }
    ensures decided { (at : ℕ) → result ≡ Ok (ends.Decided at)
        → IsHolding (S.state shelf.new).seen place.now.level (true_places place.now.outer.now) at }
    ensures exhausted { (cube : List Lit) → result ≡ Ok (ends.Exhausted cube)
        → IsExhausted place.now.game.now place.now.level (true_places place.now.outer.now) place.now.region.now
        (S.state shelf.new).seen cube }
    ensures spent { (unknown : Unknown) → result ≡ Err (gives.Spent unknown)
        → IsRegionSpent (S.state shelf.old) (S.state shelf.new) (M.state moves.old) (M.state moves.new)
        (C.state child.old) (C.state child.new) unknown }
{
    loop {
        moves.begin(alloc, place.outer, place.region, false)?;
        if let Some(end) = try_next(alloc, shelf, moves, child, gate, place)? {
            return Ok(end);
        }
    }
}
