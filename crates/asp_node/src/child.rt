//! The trait of one who answers questions to a level.
ghost use Rattle.std.specs.Prelude.{◌≡◌, ◌-◌, ◌≤◌, ◌+◌, ℕ, length, IsTrue, Ok, Err};
ghost use Rattle.asp_bits.specs.Places.{true_places};
ghost use Rattle.asp_defs.specs.declared.faults.Give.TheVariants as gives;
ghost use Rattle.asp_defs.specs.declared.faults.Unknown.{Unknown};
ghost use Rattle.asp_defs.specs.Games.{base, is_subset, level_count};
ghost use Rattle.asp_defs.specs.History.{is_legal};
ghost use Rattle.asp_store.specs.Shelves.{GoesOn, IsHolding};
ghost use Rattle.asp_node.specs.Children.{ChildState, ChildGoesOn, RestsOn};
ghost use Rattle.asp_node.specs.Causes.{IsAskSpent};

use asp_bits::Bits;
use asp_defs::Give;
use asp_store::Shelf;
use std::alloc::Global;

/// One who answers questions to a level, the next level of whoever asks: what is the verdict on this move?
///
/// It leaves out for good what a history refutes. So it is always asked with a shelf that has seen that history, or more.
pub trait Child<S: Shelf> {
    /// The game, the level and the budget, which never change; what is left out for good at each level; and how often a search
    /// of each kind and level spent the budget.
    ghost state: { Self → ChildState };

    /// The position of an entry of the level that holds a move of the level before. `Spent`: a search of this level or a
    /// later one placed as many literals as the budget allows, or the cells didn't suffice for an entry. `NoMemory`: memory
    /// was refused.
    fn ask(&mut self, alloc: Global, shelf: &mut S, set: &Bits) -> Result<u32, Give>
        requires game { (S.state shelf.old).game ≡ (state self.old).game }
        requires legal { IsTrue (is_legal (S.state shelf.old).game (S.state shelf.old).seen) }
        requires places { length set.now ≡ length (state self.old).game.bases.atoms }
        requires rests { RestsOn (S.state shelf.old).seen (state self.old) }
        requires set { IsTrue (is_subset (true_places set.now) (base (state self.old).game ((state self.old).level - 1))) }
        ensures goes_on { ChildGoesOn (state self.old) (state self.new) }
        ensures shelf { GoesOn (S.state shelf.old) (S.state shelf.new) }
        ensures rests { RestsOn (S.state shelf.new).seen (state self.new) }
        ensures held { (at : ℕ) → result ≡ Ok at
            → IsHolding (S.state shelf.new).seen (state self.old).level (true_places set.now) at }
        ensures spent { (unknown : Unknown) → result ≡ Err (gives.Spent unknown)
            → IsAskSpent (S.state shelf.old) (S.state shelf.new) (state self.old) (state self.new) unknown };

    /// The same for a level, this one or a later one: the position of an entry of that level that holds a move of the level
    /// before it.
    fn ask_at(&mut self, alloc: Global, shelf: &mut S, level: u32, set: &Bits) -> Result<u32, Give>
        requires game { (S.state shelf.old).game ≡ (state self.old).game }
        requires legal { IsTrue (is_legal (S.state shelf.old).game (S.state shelf.old).seen) }
        requires first { (state self.old).level ≤ level }
        requires last { level ≤ level_count (state self.old).game + 1 }
        requires places { length set.now ≡ length (state self.old).game.bases.atoms }
        requires rests { RestsOn (S.state shelf.old).seen (state self.old) }
        requires set { IsTrue (is_subset (true_places set.now) (base (state self.old).game (level - 1))) }
        ensures goes_on { ChildGoesOn (state self.old) (state self.new) }
        ensures shelf { GoesOn (S.state shelf.old) (S.state shelf.new) }
        ensures rests { RestsOn (S.state shelf.new).seen (state self.new) }
        ensures held { (at : ℕ) → result ≡ Ok at → IsHolding (S.state shelf.new).seen level (true_places set.now) at }
        ensures spent { (unknown : Unknown) → result ≡ Err (gives.Spent unknown)
            → IsAskSpent (S.state shelf.old) (S.state shelf.new) (state self.old) (state self.new) unknown };
}
