//! A new question.
ghost use Rattle.std.specs.Prelude.{◌≡◌, ◌++◌, [], None, false, length, map, IsTrue, IfOk, OnOk, OnErr};
ghost use Rattle.asp_defs.specs.Interpretations.{holds};
ghost use Rattle.asp_bits.specs.Places.{true_places};
ghost use Rattle.asp_game.specs.Questions.{is_outer, is_region};
ghost use Rattle.asp_completion.specs.Codes.{code as code_of, codes, literal as literal_of};
ghost use Rattle.asp_answers.specs.Assumptions.{assumed_literals};
ghost use Rattle.asp_completion.specs.Levels.{game_at, upper, lower, rules_at, IsLevel};
ghost use Rattle.asp_completion.specs.Meanings.{IsFilled};
ghost use Rattle.asp_answers.specs.Works.{Serves, IsAsked};
ghost use Rattle.asp_answers.specs.Recorded.{Learns};
ghost use Rattle.asp_answers.specs.declared.work.Answered.TheVariants as answered;

use crate::work::{Answered, Work};
use asp_bits::Bits;
use asp_completion::{Level, add_bounds, add_completion, add_rules, push_literals};
use asp_defs::{List, Lit, NoMemory};
use asp_search::{Search, Stage};
use std::alloc::Global;

/// Appends the codes of the literals that the outer move makes true, of the atoms of the base below.
fn push_outer(level: &Level, outer: &Bits, assumed: &mut Vec<u32>) -> Result<(), NoMemory>
    requires ready { IsLevel level.now }
    requires places { length outer.now ≡ length (game_at level.now).bases.atoms }
    ensures { OnOk result (assumed.new.items
        ≡ assumed.old.items
        ++ map (λ a. code_of (upper level.now) (literal_of (holds (true_places outer.now) a) a)) (lower level.now)) }
{
    let base = level.lower();
    for atom in base {
        let literal = Lit {
            atom: *atom,
            positive: outer.get(*atom),
        };
        assumed.push(level.code(literal))?;
    }
    Ok(())
}

/// The codes of what is assumed: the outer move and the region.
fn assumptions(
    alloc: Global,
    level: &Level,
    outer: &Bits,
    region: &[Lit],
) -> Result<Vec<u32>, NoMemory>
    requires ready { IsLevel level.now }
    requires places { length outer.now ≡ length (game_at level.now).bases.atoms }
    requires region { IsTrue (is_region (game_at level.now) level.now.number region.now) }
    ensures { IfOk result (λ assumed. assumed.items
        ≡ codes (upper level.now) (assumed_literals (lower level.now) (true_places outer.now) region.now)) }
{
    let mut assumed = Vec::new(alloc);
    push_outer(level, outer, &mut assumed)?;
    push_literals(level, region, &mut assumed)?;
    Ok(assumed)
}

/// Begins a search under the outer move and the region. `NoMemory`: memory was refused, and the search is as it was.
fn begin_under(
    alloc: Global,
    level: &Level,
    search: &mut Search,
    outer: &Bits,
    region: &[Lit],
) -> Result<(), NoMemory>
    requires ready { IsLevel level.now }
    requires atoms { search.old.atoms ≡ length (upper level.now) }
    requires places { length outer.now ≡ length (game_at level.now).bases.atoms }
    requires region { IsTrue (is_region (game_at level.now) level.now.number region.now) }
    ensures begun { OnOk result (search.new ≡ record search.old {
      count = 0;
      clauses = search.old.firm;
      assumed = codes (upper level.now) (assumed_literals (lower level.now) (true_places outer.now) region.now);
      trail = [];
      ordered = None;
      stage = Stage.Begun;
    }) }
    ensures unchanged { OnErr result (search.new ≡ search.old) }
{
    let assumed = assumptions(alloc, level, outer, region)?;
    search.begin(alloc, assumed.as_slice())
}

/// Adds the clauses of the level's rules, of their completion and of its bounds to a new search.
fn fill(alloc: Global, level: &Level, search: &mut Search) -> Result<(), NoMemory>
    requires ready { IsLevel level.now }
    requires atoms { search.old.atoms ≡ length (upper level.now) }
    requires none { search.old.clauses ≡ [] }
    requires no_firm { search.old.firm ≡ [] }
    ensures { OnOk result (IsFilled (game_at level.now) level.now.number (rules_at level.now) search.old search.new) }
{
    add_rules(alloc, level, search)?;
    add_completion(alloc, level, search)?;
    add_bounds(alloc, level, search)
}

/// A search that has the clauses of the level's rules, of their completion and of its bounds.
fn filled(alloc: Global, level: &Level, budget: u64) -> Result<Search, NoMemory>
    requires ready { IsLevel level.now }
    ensures { IfOk result (λ search. Serves level.now budget [] search) }
{
    let mut search = Search::new(alloc, level.size(), budget)?;
    fill(alloc, level, &mut search)?;
    Ok(search)
}

/// The work before the first question: a search that has the clauses of the level's rules.
pub fn start(alloc: Global, level: &Level, budget: u64) -> Result<Work, NoMemory>
    requires ready { IsLevel level.now }
    ensures serves { IfOk result (λ work. Serves level.now budget work.kept.items work.search) }
    ensures kept { IfOk result (λ work. work.kept.items ≡ []) }
    ensures outer { IfOk result (λ work. work.outer ≡ []) }
    ensures region { IfOk result (λ work. work.region ≡ []) }
    ensures ordered { IfOk result (λ work. work.ordered ≡ false) }
    ensures blocked { IfOk result (λ work. work.blocked ≡ []) }
    ensures nogoods { IfOk result (λ work. work.nogoods ≡ []) }
    ensures last { IfOk result (λ work. work.last ≡ answered.Unasked) }
{
    let outer = Bits::new(alloc, 0)?;
    let set = Bits::new(alloc, 0)?;
    let kept = Vec::new(alloc);
    let region = List::new(alloc);
    let blocked = List::new(alloc);
    let nogoods = List::new(alloc);
    let check = Search::new(alloc, 0, budget)?;
    let search = filled(alloc, level, budget)?;
    Ok(Work {
        search,
        check,
        kept,
        outer,
        region,
        ordered: false,
        blocked,
        nogoods,
        set,
        last: Answered::Unasked,
    })
}

/// Puts a question. The search keeps its firm clauses and what it learned from them. `NoMemory`: memory was refused, and all is as
/// it was.
pub fn ask(
    alloc: Global,
    level: &Level,
    budget: u64,
    work: &mut Work,
    outer: &Bits,
    region: &[Lit],
    ordered: bool,
) -> Result<(), NoMemory>
    requires ready { IsLevel level.now }
    requires serves { Serves level.now budget work.old.kept.items work.old.search }
    requires places { length outer.now ≡ length (game_at level.now).bases.atoms }
    requires outer { IsTrue (is_outer (game_at level.now) level.now.number (true_places outer.now)) }
    requires region { IsTrue (is_region (game_at level.now) level.now.number region.now) }
    ensures asked { OnOk result (IsAsked level.now budget work.new) }
    ensures outer { OnOk result (work.new.outer ≡ outer.now) }
    ensures region { OnOk result (work.new.region ≡ region.now) }
    ensures ordered { OnOk result (work.new.ordered ≡ ordered) }
    ensures kept { work.new.kept.items ≡ work.old.kept.items }
    ensures blocked { OnOk result (work.new.blocked ≡ []) }
    ensures last { OnOk result (work.new.last ≡ answered.Nothing) }
    ensures placed { OnOk result (work.new.search.count ≡ 0) }
    ensures trail { OnOk result (work.new.search.trail ≡ []) }
    ensures checked { OnOk result (work.new.check.count ≡ 0) }
    ensures unchanged { OnErr result (work.new ≡ work.old) }
    ensures learned { Learns level.now work.old work.new }
{
    let set = Bits::new(alloc, level.atoms())?;
    let own_outer = outer.copy(alloc)?;
    let own_region = List::from_slice(alloc, region)?;
    let blocked = List::new(alloc);
    let check = Search::new(alloc, 0, budget)?;
    begin_under(alloc, level, &mut work.search, outer, region)?;
    work.check = check;
    work.outer = own_outer;
    work.region = own_region;
    work.ordered = ordered;
    work.blocked = blocked;
    work.set = set;
    work.last = Answered::Nothing;
    Ok(())
}
