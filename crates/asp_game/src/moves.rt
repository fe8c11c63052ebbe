//! The trait of the moves of a level.
ghost use Rattle.std.specs.Prelude.{◌≡◌, ◌≢◌, List, Bool, true, length, IsTrue, Ok, Err, OnOk, OnErr};
ghost use Rattle.asp_bits.specs.Places.{true_places};
ghost use Rattle.asp_defs.specs.declared.faults.Give.{Give};
ghost use Rattle.asp_defs.specs.declared.faults.Unknown.{Unknown};
ghost use Rattle.asp_defs.specs.declared.ground.Lit.{Lit};
ghost use Rattle.asp_game.specs.State.{MovesState, Unasked, Gave, asked, with_blocked, with_kept, without_memory, without_cube};
ghost use Rattle.asp_game.specs.Questions.{is_outer, is_region};
ghost use Rattle.asp_game.specs.Answers.{IsFound, IsFirst, IsCore, IsSpent, GoesOn, IsBlockable, is_on_base, last_after};

use crate::step::Step;
use asp_bits::Bits;
use asp_defs::{Give, Lit, NoMemory};
use std::alloc::Global;

/// The moves of one level of a game, which are asked for one after another.
///
/// | call | answer | last answer afterwards |
/// |---|---|---|
/// | `begin` | ok | none since the question |
/// | `begin` | no memory | as before |
/// | `next` | a move, a core, spent, no memory | that one |
/// | `next` after spent or no memory | the same again | the same |
/// | `block` after a move | ok | that move |
/// | `block` after a move | no memory | no memory |
/// | `keep` | ok | as before |
/// | `keep` before a question | no memory | none |
/// | `keep` after a question | no memory | no memory |
pub trait Moves {
    /// The game, the level and the budget, which never change; what is left out for good; the question; what was blocked and
    /// answered since; and how often a budget was spent.
    ghost state: { Self → MovesState };

    /// Puts a question: the moves after an outer move that have the literals of a region. `ordered` says that each
    /// answer is to be the first of the moves that are left, in the order of interpretations. `NoMemory`: memory was refused, and the
    /// question before stands.
    fn begin(
        &mut self,
        alloc: Global,
        outer: &Bits,
        region: &[Lit],
        ordered: bool,
    ) -> Result<(), NoMemory>
        requires places { length outer.now ≡ length (state self.old).game.bases.atoms }
        requires outer { IsTrue (is_outer (state self.old).game (state self.old).level (true_places outer.now)) }
        requires region { IsTrue (is_region (state self.old).game (state self.old).level region.now) }
        ensures begun { OnOk result
            (state self.new ≡ asked (state self.old) (true_places outer.now) region.now ordered) }
        ensures unchanged { OnErr result (state self.new ≡ state self.old) };

    /// The next answer: a move that is asked for, of an ordered question the first one, or that there is none. `Spent`: a
    /// search of the level placed as many literals as the budget allows. `NoMemory`: memory was refused. After both the same
    /// is answered until the next question.
    fn next(&mut self, alloc: Global) -> Result<Step, Give>
        requires { (state self.old).last ≢ Unasked }
        ensures goes_on { GoesOn (state self.old) (state self.new) }
        ensures found { (set : List Bool) → result ≡ Ok (Step.Found set) → IsFound (state self.old) set }
        ensures first { (set : List Bool) → result ≡ Ok (Step.Found set) → (state self.old).ordered ≡ true → IsFirst (state self.old) set }
        ensures core { (core : List Lit) → result ≡ Ok (Step.Core core) → IsCore (state self.old) core }
        ensures spent { (unknown : Unknown) → result ≡ Err (Give.Spent unknown)
            → IsSpent (state self.old) (state self.new) unknown }
        ensures last { (state self.new).last ≡ last_after result }
        ensures again { (give : Give) → (state self.old).last ≡ Gave give → result ≡ Err give };

    /// Leaves out the moves that have these literals, as the last one has. `NoMemory`: memory was refused; `next` says so
    /// until the next question.
    fn block(&mut self, alloc: Global, cube: &[Lit]) -> Result<(), NoMemory>
        requires { IsBlockable (state self.old) cube.now }
        ensures blocked { OnOk result (state self.new ≡ with_blocked (state self.old) cube.now) }
        ensures no_memory { OnErr result (state self.new ≡ without_memory (state self.old)) };

    /// Leaves out the moves that have these literals, in this question and all later ones. `NoMemory`: memory was refused; a
    /// question that was put answers so until the next one.
    fn keep(&mut self, alloc: Global, cube: &[Lit]) -> Result<(), NoMemory>
        requires { IsTrue (is_on_base (state self.old) cube.now) }
        ensures kept { OnOk result (state self.new ≡ with_kept (state self.old) cube.now) }
        ensures no_memory { OnErr result (state self.new ≡ without_cube (state self.old)) };
}
