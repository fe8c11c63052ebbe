//! The moves of a level.
ghost use Rattle.std.specs.Prelude.{◌≡◌, ◌≢◌, ◌≤◌, ℕ, List, [], Bool, true, false, length, IsTrue, Ok, Err, IfOk, OnOk, OnErr};
ghost use Rattle.asp_bits.specs.Places.{true_places};
ghost use Rattle.asp_defs.specs.declared.faults.Give.{Give};
ghost use Rattle.asp_defs.specs.declared.faults.Unknown.{Unknown};
ghost use Rattle.asp_defs.specs.declared.ground.Lit.{Lit};
ghost use Rattle.asp_defs.specs.Games.{base_size, level_count, IsValid};
ghost use Rattle.asp_game.specs.State.{Unasked, Gave, asked, with_blocked, with_kept, without_memory, without_cube};
ghost use Rattle.asp_game.specs.Questions.{is_outer, is_region};
ghost use Rattle.asp_game.specs.Answers.{IsFound, IsFirst, IsCore, IsSpent, GoesOn, IsBlockable, is_on_base, last_after};
ghost use Rattle.asp_defs.specs.Lists.{IsIn};
ghost use Rattle.asp_completion.specs.Meanings.{IsSoundClause};
ghost use Rattle.asp_answers.specs.AnswersState.{unasked};
ghost use Rattle.asp_answers.specs.Recorded.{AreDifferent, Grows};
ghost use Rattle.asp_answers.specs.Causes.{IsTrailCause, counts_after};

use crate::asking::{block_work, keep_work};
use crate::find::next_answer;
use crate::question::{ask, start};
use crate::work::{Counts, Work};
use asp_bits::Bits;
use asp_completion::Level;
use asp_defs::{Game, Give, Kind, List, Lit, NoMemory};
use asp_game::{Moves, Step};
use std::alloc::Global;
use std::marker::Model;
use std::sync::Arc;

/// The moves of a quantified level of a valid game, found by a search over the atoms of the level's base.
#[derive(Drop)]
pub struct Answers {
    level: Level,
    budget: u64,
    work: Work,
    searches: u64,
    checks: u64,
}

impl Model for Answers {
    ghost use Rattle.asp_answers.specs.AnswersState.{AnswersState};

    ghost Value = { AnswersState };

    ghost use Rattle.asp_answers.specs.AnswersFields.{state_of, IsSound};

    ghost view = { state_of };

    ghost invariant = { IsSound };
}

impl Answers {
    /// The moves of a level, of which none was asked for yet. A search of this level places at most `budget` literals.
    /// `NoMemory`: memory was refused.
    pub fn new(alloc: Global, game: Arc<Game>, level: u32, budget: u64) -> Result<Answers, NoMemory>
        requires valid { IsValid game.value }
        requires first { 1 ≤ level }
        requires last { level ≤ level_count game.value }
        ensures { IfOk result (λ answers. answers.moves ≡ unasked game.value level budget) }
    {
        let level = Level::new(alloc, game, level)?;
        let work = start(alloc, &level, budget)?;
        Ok(Answers {
            level,
            budget,
            work,
            searches: 0,
            checks: 0,
        })
    }

    /// The nogoods that were recorded since `new`, in the order in which they were made. None is there twice, and each is true in
    /// every move of the level after every outer move.
    pub fn nogoods(&self) -> &List<List<Lit>>
        ensures are { result.now ≡ self.now.nogoods }
        ensures sound { (clause : List Lit) → IsIn clause result.now
            → IsSoundClause self.now.moves.game self.now.moves.level [] clause }
        ensures different { AreDifferent result.now }
    {
        &self.work.nogoods
    }
}

/// How often each kind of search has spent the budget, after an answer.
fn counted(answer: &Result<Step, Give>, searches: u64, checks: u64) -> Counts
    ensures counts { result ≡ counts_after answer.now searches checks }
    ensures searches { searches ≤ result.searches }
    ensures checks { checks ≤ result.checks }
{
    let Err(Give::Spent(unknown)) = answer else {
        return Counts { searches, checks };
    };
    match unknown.kind {
        Kind::Search => Counts {
            searches: searches.saturating_add(1),
            checks,
        },
        Kind::Minimal => Counts {
            searches,
            checks: checks.saturating_add(1),
        },
        Kind::Store => Counts { searches, checks },
    }
}

impl Moves for Answers {
    ghost state = { λ answers. answers.moves };

    /// Puts a question: the moves after an outer move that have the literals of a region. `ordered` says that each
    /// answer is to be the first of the moves that are left, in the order of interpretations. `NoMemory`: memory was refused, and
    /// all is as it was.
    fn begin(
        &mut self,
        alloc: Global,
        outer: &Bits,
        region: &[Lit],
        ordered: bool,
    ) -> Result<(), NoMemory>
        requires places { length outer.now ≡ length self.old.moves.game.bases.atoms }
        requires outer { IsTrue (is_outer self.old.moves.game self.old.moves.level (true_places outer.now)) }
        requires region { IsTrue (is_region self.old.moves.game self.old.moves.level region.now) }
        ensures begun { OnOk result
            (self.new.moves ≡ asked self.old.moves (true_places outer.now) region.now ordered) }
        ensures unchanged { OnErr result (self.new.moves ≡ self.old.moves) }

        // Nothing was placed for the new question; or all is as it was.
        ensures placed { OnOk result (self.new.placed ≡ 0) }
        ensures trail { OnOk result (self.new.trail ≡ []) }
        ensures checked { OnOk result (self.new.checked ≡ 0) }
        ensures whole { OnErr result (self.new ≡ self.old) }

        // No nogood is forgotten.
        ensures grows { Grows self.old.nogoods self.new.nogoods }
    {
        ask(
            alloc,
            &self.level,
            self.budget,
            &mut self.work,
            outer,
            region,
            ordered,
        )
    }

    /// The next answer, of an ordered question the first move. After a fault the same is answered until the next question.
    ///
    /// `Spent`: with `Kind::Search`, as many literals were placed on the search's trail since `begin` as the budget
    /// allows; with `Kind::Minimal`, that trail is total, and the search of the check of that candidate has placed as
    /// many.
    /// `NoMemory`: memory was refused.
    fn next(&mut self, alloc: Global) -> Result<Step, Give>
        requires { self.old.moves.last ≢ Unasked }
        ensures goes_on { GoesOn self.old.moves self.new.moves }
        ensures found { (set : List Bool) → result ≡ Ok (Step.Found set) → IsFound self.old.moves set }
        ensures first { (set : List Bool) → result ≡ Ok (Step.Found set) → self.old.moves.ordered ≡ true → IsFirst self.old.moves set }
        ensures core { (core : List Lit) → result ≡ Ok (Step.Core core) → IsCore self.old.moves core }
        ensures spent { (unknown : Unknown) → result ≡ Err (Give.Spent unknown)
            → IsSpent self.old.moves self.new.moves unknown }
        ensures last { self.new.moves.last ≡ last_after result }
        ensures again { (give : Give) → self.old.moves.last ≡ Gave give → result ≡ Err give }

        // The trail of which a budget was spent, and how often one was; no placement since `begin` is forgotten.
        ensures cause { (unknown : Unknown) → result ≡ Err (Give.Spent unknown) → IsTrailCause unknown.kind self.new }
        ensures searches { self.new.moves.searches
            ≡ (counts_after result self.old.moves.searches self.old.moves.checks).searches }
        ensures checks { self.new.moves.checks
            ≡ (counts_after result self.old.moves.searches self.old.moves.checks).checks }
        ensures placed { self.old.placed ≤ self.new.placed }

        // No nogood is forgotten.
        ensures grows { Grows self.old.nogoods self.new.nogoods }
    {
        let answer = next_answer(alloc, &self.level, self.budget, &mut self.work);
        let counts = counted(&answer, self.searches, self.checks);
        self.searches = counts.searches;
        self.checks = counts.checks;
        answer
    }

    /// Leaves out the moves that have these literals, as the last one has. `NoMemory`: memory was refused; `next` says
    /// so until the next question.
    fn block(&mut self, alloc: Global, cube: &[Lit]) -> Result<(), NoMemory>
        requires { IsBlockable self.old.moves cube.now }
        ensures blocked { OnOk result (self.new.moves ≡ with_blocked self.old.moves cube.now) }
        ensures no_memory { OnErr result (self.new.moves ≡ without_memory self.old.moves) }
        ensures placed { self.new.placed ≡ self.old.placed }

        // No nogood is forgotten.
        ensures grows { Grows self.old.nogoods self.new.nogoods }
    {
        block_work(alloc, &self.level, self.budget, &mut self.work, cube)
    }

    /// Leaves out the moves that have these literals, in this question and all later ones. `NoMemory`: memory was refused; `next`
    /// says so until the next question, if there was one.
    fn keep(&mut self, alloc: Global, cube: &[Lit]) -> Result<(), NoMemory>
        requires { IsTrue (is_on_base self.old.moves cube.now) }
        ensures kept { OnOk result (self.new.moves ≡ with_kept self.old.moves cube.now) }
        ensures no_memory { OnErr result (self.new.moves ≡ without_cube self.old.moves) }
        ensures placed { self.new.placed ≡ self.old.placed }

        // No nogood is forgotten.
        ensures grows { Grows self.old.nogoods self.new.nogoods }
    {
        keep_work(alloc, &self.level, self.budget, &mut self.work, cube)
    }
}
