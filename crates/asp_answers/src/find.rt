//! The search for the next move.
ghost use Rattle.std.specs.Prelude.{◌≡◌, ◌≢◌, ◌++◌, ◌∷◌, ◌*◌, [], ℕ, ◌<◌, ◌≤◌, Bool, true, false, List, length, get_or};
ghost use Rattle.std.specs.Prelude.{map, None, Some, Ok, Err, IfOk, IfSome, OnOk, OnErr};
ghost use Rattle.std.specs.List.{filter};
ghost use Rattle.asp_bits.specs.Places.{true_places};
ghost use Rattle.asp_defs.specs.declared.faults.Give.{Give};
ghost use Rattle.asp_defs.specs.declared.faults.Unknown.{Unknown};
ghost use Rattle.asp_defs.specs.declared.ground.Lit.{Lit};
ghost use Rattle.asp_defs.specs.Bounds.{meets_all};
ghost use Rattle.asp_defs.specs.Lists.{IsIn, is_empty};
ghost use Rattle.asp_defs.specs.Interpretations.{holds};
ghost use Rattle.asp_search.specs.declared.stage.Stage.TheVariants.{New};
ghost use Rattle.asp_search.specs.Seen.{AreCodes};
ghost use Rattle.asp_search.specs.State.{HasFound, IsLeast};
ghost use Rattle.asp_minimal.specs.Choices.{bound_atoms, Refutes};
ghost use Rattle.asp_minimal.specs.Nogoods.{is_false};
ghost use Rattle.asp_game.specs.State.{Gave};
ghost use Rattle.asp_game.specs.Answers.{IsFound, IsFirst, IsCore, last_after};
ghost use Rattle.asp_answers.specs.Candidates.{candidates_left};
ghost use Rattle.asp_completion.specs.Codes.{rank, codes};
ghost use Rattle.asp_answers.specs.Assumptions.{names, outer_part as part_of};
ghost use Rattle.asp_completion.specs.Levels.{game_at, upper, lower, rules_at, bounds_at, IsLevel};
ghost use Rattle.asp_answers.specs.Recorded.{Learns};
ghost use Rattle.asp_answers.specs.declared.work.Answered.TheVariants as answered;
ghost use Rattle.asp_answers.specs.Works.{IsAsked, KeepsQuestion, IsRead, IsCandidate, HasSpent, HasRun, IsSettled, question_of, last_of, answered_by, fault_of};
ghost use Rattle.asp_completion.specs.Meanings.{AddsTo, IsSoundClause};
ghost use Rattle.asp_completion.specs.declared.level.Level.{Level};

use crate::work::{Answered, Work};
use asp_bits::Bits;
use asp_bounds::unmet;
use asp_completion::{Level, add_literals};
use asp_defs::{Give, Kind, List, Lit, NoMemory, Unknown};
use asp_game::Step;
use asp_minimal::{Minimality, minimal, nogood_of_atom};
use asp_search::{Outcome, Search, SearchFault};
use std::alloc::Global;

/// Writes what the search has found into the candidate.
fn read(level: &Level, search: &Search, set: &mut Bits)
    requires ready { IsLevel level.now }
    requires atoms { search.now.atoms ≡ length (upper level.now) }
    requires found { HasFound search.now }
    requires places { length set.old ≡ length (game_at level.now).bases.atoms }
    requires inside { (a : ℕ) → get_or set.old a false ≡ true → holds (upper level.now) a ≡ true }
    ensures { IsRead (upper level.now) (length (game_at level.now).bases.atoms) search.now.trail set.new }
{
    let base = level.upper();
    for place in 0..base.len() {
        let truth = search.value(place as u32);
        set.set(base[place], truth);
    }
}

/// How many of the atoms are true.
fn count_true(atoms: &[u32], set: &Bits) -> u32
    requires few { length atoms.now ≤ 262144 }
    requires below { (a : ℕ) → holds atoms.now a ≡ true → a < length set.now }
    ensures { result ≡ length (filter (holds (true_places set.now)) atoms.now) }
{
    let mut count = 0;
    for atom in atoms {
        if set.get(*atom) {
            count += 1;
        }
    }
    count
}

/// How many atoms of the candidate the base below lacks.
fn count_bound(level: &Level, set: &Bits) -> u32
    requires ready { IsLevel level.now }
    requires places { length set.now ≡ length (game_at level.now).bases.atoms }
    requires inside { (a : ℕ) → get_or set.now a false ≡ true → holds (upper level.now) a ≡ true }
    ensures is { result ≡ length (bound_atoms (lower level.now) (true_places set.now)) }
    ensures few { result ≤ 262144 }
{
    let all = count_true(level.upper(), set);
    let low = count_true(level.lower(), set);
    all - low
}

/// Which atoms of the search a core names.
fn named(alloc: Global, core: &[u32], atoms: u32) -> Result<Bits, NoMemory>
    requires { AreCodes (2 * atoms) core.now }
    ensures marks { IfOk result (λ named. (k : ℕ) → k < atoms → get_or named k false ≡ names core.now k) }
    ensures places { IfOk result (λ named. length named ≡ atoms) }
{
    let mut named = Bits::new(alloc, atoms)?;
    for code in core {
        named.set(*code / 2, true);
    }
    Ok(named)
}

/// Whether the literal's atom is marked.
fn is_named(level: &Level, named: &Bits, literal: Lit) -> bool
    requires ready { IsLevel level.now }
    requires inside { holds (upper level.now) literal.atom ≡ true }
    requires places { length named.now ≡ length (upper level.now) }
    ensures { result ≡ get_or named.now (rank (upper level.now) literal.atom) false }
{
    let number = level.code(literal);
    named.get(number / 2)
}

/// The literals of the outer move whose atoms a core names.
fn outer_part(
    alloc: Global,
    level: &Level,
    outer: &Bits,
    core: &[u32],
) -> Result<List<Lit>, NoMemory>
    requires ready { IsLevel level.now }
    requires places { length outer.now ≡ length (game_at level.now).bases.atoms }
    requires codes { AreCodes (2 * length (upper level.now)) core.now }
    ensures { IfOk result (λ part. part
        ≡ part_of (upper level.now) (lower level.now) (true_places outer.now) core.now) }
{
    let named = named(alloc, core, level.size())?;
    let mut part = List::new(alloc);
    let base = level.lower();
    for atom in base {
        let literal = Lit {
            atom: *atom,
            positive: outer.get(*atom),
        };
        if is_named(level, &named, literal) {
            part.push(literal)?;
        }
    }
    Ok(part)
}

/// Adds a clause that every move satisfies and the candidate doesn't.
fn exclude(alloc: Global, level: &Level, work: &mut Work, clause: &[Lit]) -> Result<(), NoMemory>
    requires ready { IsLevel level.now }
    requires asked { IsAsked level.now work.old.search.budget work.old }
    requires candidate { IsCandidate level.now work.old }
    requires sound { IsSoundClause (game_at level.now) level.now.number [] clause.now }
    requires false_here { is_false (true_places work.old.set) clause.now ≡ true }
    ensures asked { (budget : ℕ) → IsAsked level.now budget work.old → IsAsked level.now budget work.new }
    ensures kept { KeepsQuestion work.old work.new }
    ensures same { work.new.set ≡ work.old.set }
    ensures fewer { OnOk result (candidates_left (upper level.now) work.new.search.clauses
        < candidates_left (upper level.now) work.old.search.clauses) }
    ensures placed { work.new.search.count ≡ work.old.search.count }
    ensures added { OnOk result (AddsTo work.old.search work.new.search (codes (upper level.now) clause.now)) }
    ensures nogoods { work.new.nogoods ≡ work.old.nogoods }
    ensures learned { Learns level.now work.old work.new }
{
    add_literals(alloc, level, clause, &mut work.search)
}

/// The first of the atoms.
fn first_of(atoms: &[u32]) -> u32
    requires { is_empty atoms.now ≡ false }
    ensures { holds atoms.now result ≡ true }
{
    atoms[0]
}

/// Adds a clause that every move satisfies and the candidate, which has this unfounded set, doesn't; and records it. It denies one
/// atom of the set.
fn exclude_unfounded(
    alloc: Global,
    level: &Level,
    work: &mut Work,
    unfounded: &List<u32>,
) -> Result<(), NoMemory>
    requires ready { IsLevel level.now }
    requires asked { IsAsked level.now work.old.search.budget work.old }
    requires candidate { IsCandidate level.now work.old }
    requires refuted { Refutes (rules_at level.now) (lower level.now) (true_places work.old.set) unfounded.now }
    ensures asked { (budget : ℕ) → IsAsked level.now budget work.old → IsAsked level.now budget work.new }
    ensures kept { KeepsQuestion work.old work.new }
    ensures same { work.new.set ≡ work.old.set }
    ensures fewer { OnOk result (candidates_left (upper level.now) work.new.search.clauses
        < candidates_left (upper level.now) work.old.search.clauses) }
    ensures placed { work.new.search.count ≡ work.old.search.count }
    ensures learned { Learns level.now work.old work.new }
{
    let atom = first_of(unfounded.as_slice());
    let clause = nogood_of_atom(
        alloc,
        level.rules(),
        &work.set,
        unfounded,
        atom,
        &work.outer,
    )?;
    exclude(alloc, level, work, clause.as_slice())?;
    work.nogoods.push(clause)
}

/// Checks the candidate, which meets the bounds: it is a move, or a clause is added that every move satisfies and the candidate
/// doesn't.
fn judge_minimal(
    alloc: Global,
    level: &Level,
    budget: u64,
    work: &mut Work,
) -> Result<Option<Step>, Give>
    requires ready { IsLevel level.now }
    requires asked { IsAsked level.now budget work.old }
    requires candidate { IsCandidate level.now work.old }
    requires met { meets_all (true_places work.old.set) (bounds_at level.now) ≡ true }
    ensures asked { IsAsked level.now budget work.new }
    ensures kept { KeepsQuestion work.old work.new }
    ensures same { work.new.set ≡ work.old.set }
    ensures found { (set : List Bool) → result ≡ Ok (Some (Step.Found set))
        → (set ≡ work.new.set) × IsFound (question_of level.now budget work.old) set }
    ensures no_core { (core : List Lit) → result ≡ Ok (Some (Step.Core core)) → ⊥ }
    ensures fewer { result ≡ Ok None
        → candidates_left (upper level.now) work.new.search.clauses
        < candidates_left (upper level.now) work.old.search.clauses }
    ensures spent { (unknown : Unknown) → result ≡ Err (Give.Spent unknown)
        → HasSpent level.now budget work.new unknown }
    ensures placed { work.new.search.count ≡ work.old.search.count }
    ensures learned { Learns level.now work.old work.new }
{
    let bound = count_bound(level, &work.set);
    let check = Search::new(alloc, bound, budget)?;
    work.check = check;
    match minimal(
        alloc,
        level.rules(),
        level.lower(),
        &work.set,
        level.number,
        &mut work.check,
    ) {
        Ok(Minimality::Yes) => {
            let set = work.set.copy(alloc)?;
            Ok(Some(Step::Found(set)))
        }
        Ok(Minimality::No(unfounded)) => {
            exclude_unfounded(alloc, level, work, &unfounded)?;
            Ok(None)
        }
        Err(give) => Err(give),
    }
}

/// Checks the candidate: it is a move, or a clause is added that every move satisfies and the candidate doesn't.
fn judge(alloc: Global, level: &Level, budget: u64, work: &mut Work) -> Result<Option<Step>, Give>
    requires ready { IsLevel level.now }
    requires asked { IsAsked level.now budget work.old }
    requires candidate { IsCandidate level.now work.old }
    ensures asked { IsAsked level.now budget work.new }
    ensures kept { KeepsQuestion work.old work.new }
    ensures same { work.new.set ≡ work.old.set }
    ensures found { (set : List Bool) → result ≡ Ok (Some (Step.Found set))
        → (set ≡ work.new.set) × IsFound (question_of level.now budget work.old) set }
    ensures no_core { (core : List Lit) → result ≡ Ok (Some (Step.Core core)) → ⊥ }
    ensures fewer { result ≡ Ok None
        → candidates_left (upper level.now) work.new.search.clauses
        < candidates_left (upper level.now) work.old.search.clauses }
    ensures spent { (unknown : Unknown) → result ≡ Err (Give.Spent unknown)
        → HasSpent level.now budget work.new unknown }
    ensures placed { work.new.search.count ≡ work.old.search.count }
    ensures learned { Learns level.now work.old work.new }
{
    let found = unmet(alloc, level.bounds(), &work.set)?;
    match found {
        Some(clause) => {
            exclude(alloc, level, work, clause.as_slice())?;
            Ok(None)
        }
        None => judge_minimal(alloc, level, budget, work),
    }
}

/// Runs the search until it has an assignment, a core or a fault.
fn run(alloc: Global, work: &mut Work) -> Result<Outcome, SearchFault>
    requires begun { work.old.search.stage ≢ New }
    requires same { IfSome work.old.search.ordered (λ was. was ≡ work.old.ordered) }
    ensures asked { (l : Level) (budget : ℕ) → IsLevel l → IsAsked l budget work.old → IsAsked l budget work.new }
    ensures kept { KeepsQuestion work.old work.new }
    ensures same { work.new.set ≡ work.old.set }
    ensures ran { HasRun work.old.search work.new.search result }
    ensures least { result ≡ Ok Outcome.Found → work.old.ordered ≡ true → IsLeast work.new.search }
    ensures learned { (l : Level) → Learns l work.old work.new }
{
    work.search.next(alloc, work.ordered)
}

/// One run of the search: an answer, or none where the candidate was no move.
fn step(alloc: Global, level: &Level, budget: u64, work: &mut Work) -> Result<Option<Step>, Give>
    requires ready { IsLevel level.now }
    requires asked { IsAsked level.now budget work.old }
    ensures asked { IsAsked level.now budget work.new }
    ensures kept { KeepsQuestion work.old work.new }
    ensures found { (set : List Bool) → result ≡ Ok (Some (Step.Found set))
        → (set ≡ work.new.set) × IsFound (question_of level.now budget work.old) set }
    ensures first { (set : List Bool) → result ≡ Ok (Some (Step.Found set)) → work.old.ordered ≡ true
        → IsFirst (question_of level.now budget work.old) set }
    ensures core { (core : List Lit) → result ≡ Ok (Some (Step.Core core))
        → IsCore (question_of level.now budget work.old) core }
    ensures fewer { result ≡ Ok None
        → candidates_left (upper level.now) work.new.search.clauses
        < candidates_left (upper level.now) work.old.search.clauses }
    ensures spent { (unknown : Unknown) → result ≡ Err (Give.Spent unknown)
        → HasSpent level.now budget work.new unknown }
    ensures placed { work.old.search.count ≤ work.new.search.count }
    ensures learned { Learns level.now work.old work.new }
{
    match run(alloc, work) {
        Ok(Outcome::Found) => {
            read(level, &work.search, &mut work.set);
            judge(alloc, level, budget, work)
        }
        Ok(Outcome::Core(core)) => {
            let part = outer_part(alloc, level, &work.outer, core.as_slice())?;
            Ok(Some(Step::Core(part)))
        }
        Err(SearchFault::Spent) => Err(Give::Spent(Unknown {
            kind: Kind::Search,
            level: level.number,
            budget,
        })),
        Err(SearchFault::NoMemory) => Err(Give::NoMemory),
    }
}

/// Runs the search until there is an answer.
fn find(alloc: Global, level: &Level, budget: u64, work: &mut Work) -> Result<Step, Give>
    requires ready { IsLevel level.now }
    requires asked { IsAsked level.now budget work.old }
    ensures asked { IsAsked level.now budget work.new }
    ensures kept { KeepsQuestion work.old work.new }
    ensures found { (set : List Bool) → result ≡ Ok (Step.Found set)
        → (set ≡ work.new.set) × IsFound (question_of level.now budget work.old) set }
    ensures first { (set : List Bool) → result ≡ Ok (Step.Found set) → work.old.ordered ≡ true
        → IsFirst (question_of level.now budget work.old) set }
    ensures core { (core : List Lit) → result ≡ Ok (Step.Core core)
        → IsCore (question_of level.now budget work.old) core }
    ensures spent { (unknown : Unknown) → result ≡ Err (Give.Spent unknown)
        → HasSpent level.now budget work.new unknown }
    ensures placed { work.old.search.count ≤ work.new.search.count }
    ensures learned { Learns level.now work.old work.new }
{
    loop {
        if let Some(answer) = step(alloc, level, budget, work)? {
            return Ok(answer);
        }
    }
}

/// The last answer after an answer.
fn answered(answer: &Result<Step, Give>) -> Answered
    ensures { result ≡ answered_by answer.now }
{
    match answer {
        Ok(Step::Found(_)) => Answered::Found,
        Ok(Step::Core(_)) => Answered::Core,
        Err(Give::Spent(unknown)) => Answered::Spent(unknown.kind),
        Err(Give::NoMemory) => Answered::NoMemory,
    }
}

/// The fault that was answered last.
fn fault(last: Answered, level: u32, budget: u64) -> Option<Give>
    ensures { result ≡ fault_of level budget last }
{
    match last {
        Answered::Spent(kind) => Some(Give::Spent(Unknown {
            kind,
            level,
            budget,
        })),
        Answered::NoMemory => Some(Give::NoMemory),
        Answered::Unasked | Answered::Nothing | Answered::Found | Answered::Core => None,
    }
}

/// The next answer, where the last one was no fault.
fn fresh_answer(alloc: Global, level: &Level, budget: u64, work: &mut Work) -> Result<Step, Give>
    requires ready { IsLevel level.now }
    requires asked { IsAsked level.now budget work.old }
    ensures settled { IsSettled level.now budget work.new }
    ensures outer { work.new.outer ≡ work.old.outer }
    ensures region { work.new.region ≡ work.old.region }
    ensures ordered { work.new.ordered ≡ work.old.ordered }
    ensures kept { work.new.kept.items ≡ work.old.kept.items }
    ensures blocked { work.new.blocked ≡ work.old.blocked }
    ensures last { last_of level.now budget work.new ≡ last_after result }
    ensures found { (set : List Bool) → result ≡ Ok (Step.Found set)
        → IsFound (question_of level.now budget work.old) set }
    ensures first { (set : List Bool) → result ≡ Ok (Step.Found set) → work.old.ordered ≡ true
        → IsFirst (question_of level.now budget work.old) set }
    ensures core { (core : List Lit) → result ≡ Ok (Step.Core core)
        → IsCore (question_of level.now budget work.old) core }
    ensures spent { (unknown : Unknown) → result ≡ Err (Give.Spent unknown)
        → HasSpent level.now budget work.new unknown }
    ensures placed { work.old.search.count ≤ work.new.search.count }
    ensures learned { Learns level.now work.old work.new }
{
    let answer = find(alloc, level, budget, work);
    work.last = answered(&answer);
    answer
}

/// The next answer to a question. After a fault it is the same again.
///
/// `Spent`: the search, or the check of a candidate, has placed as many literals as the budget allows.
/// `NoMemory`: memory was refused.
pub fn next_answer(alloc: Global, level: &Level, budget: u64, work: &mut Work) -> Result<Step, Give>
    requires ready { IsLevel level.now }
    requires settled { IsSettled level.now budget work.old }
    requires asked { work.old.last ≢ answered.Unasked }
    ensures settled { IsSettled level.now budget work.new }
    ensures outer { work.new.outer ≡ work.old.outer }
    ensures region { work.new.region ≡ work.old.region }
    ensures ordered { work.new.ordered ≡ work.old.ordered }
    ensures kept { work.new.kept.items ≡ work.old.kept.items }
    ensures blocked { work.new.blocked ≡ work.old.blocked }
    ensures last { last_of level.now budget work.new ≡ last_after result }
    ensures found { (set : List Bool) → result ≡ Ok (Step.Found set)
        → IsFound (question_of level.now budget work.old) set }
    ensures first { (set : List Bool) → result ≡ Ok (Step.Found set) → work.old.ordered ≡ true
        → IsFirst (question_of level.now budget work.old) set }
    ensures core { (core : List Lit) → result ≡ Ok (Step.Core core)
        → IsCore (question_of level.now budget work.old) core }
    ensures spent { (unknown : Unknown) → result ≡ Err (Give.Spent unknown)
        → HasSpent level.now budget work.new unknown }
    ensures again { (give : Give) → last_of level.now budget work.old ≡ Gave give → result ≡ Err give }
    ensures placed { work.old.search.count ≤ work.new.search.count }
    ensures learned { Learns level.now work.old work.new }
{
    match fault(work.last, level.number, budget) {
        Some(give) => Err(give),
        None => fresh_answer(alloc, level, budget, work),
    }
}
