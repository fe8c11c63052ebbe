//! Who answers for a level, with who answers for the next one.
ghost use Rattle.std.specs.Prelude.{◌≡◌, ◌+◌, ◌-◌, ◌≤◌, ℕ, length, IsTrue, Ok, Err};
ghost use Rattle.asp_bits.specs.Places.{true_places};
ghost use Rattle.asp_defs.specs.declared.faults.Give.TheVariants as gives;
ghost use Rattle.asp_defs.specs.declared.faults.Unknown.{Unknown};
ghost use Rattle.asp_defs.specs.Games.{base, is_subset, level_count};
ghost use Rattle.asp_defs.specs.History.{is_legal};
ghost use Rattle.asp_store.specs.Shelves.{GoesOn, IsHolding};
ghost use Rattle.asp_node.specs.Children.{ChildGoesOn, RestsOn};
ghost use Rattle.asp_node.specs.Causes.{IsAskSpent};
ghost use Rattle.asp_node.specs.Works.{MovesGoOn};
ghost use Rattle.asp_team.specs.States.{layer_state, over, AreWrapped, IsLayered, IsOver, IsOwn, IsUnfinished, StaysOver};

use crate::concluding::conclude;
use crate::level::Level;
use asp_answers::Answers;
use asp_bits::Bits;
use asp_defs::{Game, Give};
use asp_game::NoGate;
use asp_node::{Child, Place, region};
use asp_store::Own;
use std::alloc::Global;
use std::marker::Model;

/// Answers for a level, by its moves and by who answers for the next level. Without a level of its own it passes each question
/// on.
#[derive(Drop)]
pub(crate) struct Layer<C: Child<Own>> {
    own: Option<Level>,
    child: C,
}

impl<C: Child<Own>> Model for Layer<C> {
    ghost use Rattle.asp_node.specs.Children.{ChildState};
    ghost use Rattle.asp_team.specs.States.{over, IsOver};

    ghost Value = { ChildState };

    ghost view = { λ layer. over layer.own (C.Child.state layer.child) };

    ghost invariant = { λ layer. IsOver layer.own (C.Child.state layer.child) };
}

impl<C: Child<Own>> Layer<C> {
    /// One layer more: it takes the last of the levels for which no one answers yet, if there is one.
    // Sixteen layers inlined into one another take LLVM very long, here and below.
    #[inline(never)]
    pub(crate) fn around(levels: &mut Vec<Level>, child: C) -> Layer<C>
        requires { IsUnfinished levels.old.items (C.Child.state child) }
        ensures { AreWrapped 1 levels.old.items (C.Child.state child) levels.new.items result }
    {
        Layer {
            own: levels.pop(),
            child,
        }
    }
}

/// The verdict on an outer move of a level, by its moves and by who answers for the next level: the position of an entry that
/// holds it. `Spent`: a search of this level or a later one placed as many literals as the budget allows, or the cells didn't
/// suffice for an entry. `NoMemory`: memory was refused.
#[inline(never)]
fn answer<C: Child<Own>>(
    alloc: Global,
    shelf: &mut Own,
    game: &Game,
    level: u32,
    moves: &mut Answers,
    child: &mut C,
    set: &Bits,
) -> Result<u32, Give>
    requires layered { IsLayered moves.old.moves (C.Child.state child.old) }
    requires own { (game.now ≡ moves.old.moves.game) × (level ≡ moves.old.moves.level) }
    requires game { shelf.old.game ≡ moves.old.moves.game }
    requires legal { IsTrue (is_legal shelf.old.game shelf.old.seen) }
    requires places { length set.now ≡ length moves.old.moves.game.bases.atoms }
    requires rests { RestsOn shelf.old.seen (layer_state moves.old.moves (C.Child.state child.old)) }
    requires set { IsTrue (is_subset (true_places set.now) (base moves.old.moves.game (level - 1))) }
    ensures moves { MovesGoOn moves.old.moves moves.new.moves }
    ensures child { ChildGoesOn (C.Child.state child.old) (C.Child.state child.new) }
    ensures shelf { GoesOn shelf.old shelf.new }
    ensures rests { RestsOn shelf.new.seen (layer_state moves.new.moves (C.Child.state child.new)) }
    ensures held { (at : ℕ) → result ≡ Ok at → IsHolding shelf.new.seen level (true_places set.now) at }
    ensures spent { (unknown : Unknown) → result ≡ Err (gives.Spent unknown)
        → IsAskSpent shelf.old shelf.new (layer_state moves.old.moves (C.Child.state child.old))
        (layer_state moves.new.moves (C.Child.state child.new)) unknown }
{
    let place = Place {
        game,
        level,
        member: 0,
        outer: set,
        region: &[],
    };
    let end = region(alloc, shelf, moves, child, &NoGate, &place)?;
    conclude(alloc, shelf, &place, end)
}

/// The same for a level of one's own, or for the next one where there is none.
#[inline(never)]
fn ask<C: Child<Own>>(
    alloc: Global,
    shelf: &mut Own,
    own: &mut Option<Level>,
    child: &mut C,
    set: &Bits,
) -> Result<u32, Give>
    requires over { IsOver own.old (C.Child.state child.old) }
    requires game { shelf.old.game ≡ (over own.old (C.Child.state child.old)).game }
    requires legal { IsTrue (is_legal shelf.old.game shelf.old.seen) }
    requires places { length set.now ≡ length (over own.old (C.Child.state child.old)).game.bases.atoms }
    requires rests { RestsOn shelf.old.seen (over own.old (C.Child.state child.old)) }
    requires set { IsTrue (is_subset (true_places set.now)
        (base (over own.old (C.Child.state child.old)).game ((over own.old (C.Child.state child.old)).level - 1))) }
    ensures stays { StaysOver own.old (C.Child.state child.old) own.new (C.Child.state child.new) }
    ensures shelf { GoesOn shelf.old shelf.new }
    ensures rests { RestsOn shelf.new.seen (over own.new (C.Child.state child.new)) }
    ensures held { (at : ℕ) → result ≡ Ok at
        → IsHolding shelf.new.seen (over own.old (C.Child.state child.old)).level (true_places set.now) at }
    ensures spent { (unknown : Unknown) → result ≡ Err (gives.Spent unknown)
        → IsAskSpent shelf.old shelf.new (over own.old (C.Child.state child.old))
        (over own.new (C.Child.state child.new)) unknown }
{
    match own {
        None => child.ask(alloc, shelf, set),
        Some(level) => answer(
            alloc,
            shelf,
            &level.game,
            level.number,
            &mut *level.moves,
            child,
            set,
        ),
    }
}

/// Whether there is a level of one's own and it is the one that is asked, or a later one.
fn is_own(own: &Option<Level>, level: u32) -> bool
    ensures { IsOwn own.now level result }
{
    match own {
        None => false,
        Some(first) => level <= first.number,
    }
}

impl<C: Child<Own>> Child<Own> for Layer<C> {
    ghost state = { λ layer. layer };

    fn ask(&mut self, alloc: Global, shelf: &mut Own, set: &Bits) -> Result<u32, Give> {
        ask(alloc, shelf, &mut self.own, &mut self.child, set)
    }

    #[inline(never)]
    fn ask_at(
        &mut self,
        alloc: Global,
        shelf: &mut Own,
        level: u32,
        set: &Bits,
    ) -> Result<u32, Give> {
        if is_own(&self.own, level) {
            return ask(alloc, shelf, &mut self.own, &mut self.child, set);
        }
        self.child.ask_at(alloc, shelf, level, set)
    }
}
