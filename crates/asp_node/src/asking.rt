//! A move's question to the next level.
ghost use Rattle.std.specs.Prelude.{◌≡◌, ◌≤◌, ◌+◌, ℕ, length, IsTrue, Ok, Err};
ghost use Rattle.asp_bits.specs.Places.{true_places};
ghost use Rattle.asp_defs.specs.declared.faults.Give.TheVariants as gives;
ghost use Rattle.asp_defs.specs.declared.faults.Unknown.{Unknown};
ghost use Rattle.asp_defs.specs.Games.{base, is_subset};
ghost use Rattle.asp_store.specs.Shelves.{GoesOn, IsHolding};
ghost use Rattle.asp_node.specs.Children.{ChildGoesOn, RestsOn};
ghost use Rattle.asp_node.specs.Causes.{IsAskSpent};

use crate::child::Child;
use asp_bits::Bits;
use asp_defs::Give;
use asp_game::{Gate, Point};
use asp_store::Shelf;
use std::alloc::Global;

/// The position of an entry of the child's level that holds the move: one that is there, or the child's answer.
pub(crate) fn ask<S: Shelf, C: Child<S>, G: Gate>(
    alloc: Global,
    shelf: &mut S,
    child: &mut C,
    gate: &G,
    point: &Point,
    set: &Bits,
) -> Result<u32, Give>
    requires small { point.now.level ≤ 16 }
    requires game { (S.state shelf.old).game ≡ (C.state child.old).game }
    requires level { (C.state child.old).level ≡ point.now.level + 1 }
    requires places { length set.now ≡ length (C.state child.old).game.bases.atoms }
    requires rests { RestsOn (S.state shelf.old).seen (C.state child.old) }
    requires set { IsTrue (is_subset (true_places set.now) (base (C.state child.old).game point.now.level)) }
    ensures goes_on { ChildGoesOn (C.state child.old) (C.state child.new) }
    ensures shelf { GoesOn (S.state shelf.old) (S.state shelf.new) }
    ensures rests { RestsOn (S.state shelf.new).seen (C.state child.new) }
    ensures held { (at : ℕ) → result ≡ Ok at
        → IsHolding (S.state shelf.new).seen (point.now.level + 1) (true_places set.now) at }
    ensures spent { (unknown : Unknown) → result ≡ Err (gives.Spent unknown)
        → IsAskSpent (S.state shelf.old) (S.state shelf.new) (C.state child.old) (C.state child.new) unknown }
{
    if let Some(at) = shelf.look(point.level + 1, set) {
        return Ok(at);
    }
    gate.pass(point);
    child.ask(alloc, shelf, set)
}
