//! Cubes that are left out, of a question or of every question.
ghost use Rattle.std.specs.Prelude.{◌≡◌, ◌++◌, ◌∷◌, [], true, length, map, IfOk, OnOk, OnErr};
ghost use Rattle.asp_defs.specs.declared.ground.Lit.{Lit};
ghost use Rattle.asp_defs.specs.Lists.{IsIn};
ghost use Rattle.asp_defs.specs.Interpretations.{holds};
ghost use Rattle.asp_completion.specs.Codes.{codes, opposite};
ghost use Rattle.asp_completion.specs.Levels.{upper, IsLevel};
ghost use Rattle.asp_completion.specs.Meanings.{AddsTo};
ghost use Rattle.asp_answers.specs.Recorded.{Learns};
ghost use Rattle.asp_answers.specs.Works.{Serves, IsAsked, IsSettled};

use crate::work::Work;
use asp_completion::{Level, add_literals, add_loosely};
use asp_defs::{List, Lit, NoMemory};
use asp_search::Search;
use std::alloc::Global;

/// The other literals of the same atoms.
fn opposites(alloc: Global, cube: &[Lit]) -> Result<Vec<Lit>, NoMemory>
    ensures { IfOk result (λ others. others.items ≡ map opposite cube.now) }
{
    let mut others = Vec::new(alloc);
    for literal in cube {
        others.push(Lit {
            atom: literal.atom,
            positive: !literal.positive,
        })?;
    }
    Ok(others)
}

/// Blocks a cube: its moves are found no more.
///
/// `NoMemory`: memory was refused. The search may then have the cube's clause without the cube being among the blocked.
pub fn block_cube(
    alloc: Global,
    level: &Level,
    budget: u64,
    work: &mut Work,
    cube: &[Lit],
) -> Result<(), NoMemory>
    requires ready { IsLevel level.now }
    requires asked { IsAsked level.now budget work.old }
    requires inside { (l : Lit) → IsIn l cube.now → holds (upper level.now) l.atom ≡ true }
    ensures serves { Serves level.now budget work.new.kept.items work.new.search }
    ensures asked { OnOk result (IsAsked level.now budget work.new) }
    ensures more { OnOk result (work.new.blocked ≡ work.old.blocked ++ cube.now ∷ []) }
    ensures blocked { OnErr result (work.new.blocked ≡ work.old.blocked) }
    ensures outer { work.new.outer ≡ work.old.outer }
    ensures region { work.new.region ≡ work.old.region }
    ensures ordered { work.new.ordered ≡ work.old.ordered }
    ensures kept { work.new.kept.items ≡ work.old.kept.items }
    ensures set { work.new.set ≡ work.old.set }
    ensures last { work.new.last ≡ work.old.last }
    ensures placed { work.new.search.count ≡ work.old.search.count }
    ensures learned { Learns level.now work.old work.new }
{
    let kept = List::from_slice(alloc, cube)?;
    let others = opposites(alloc, cube)?;
    add_loosely(alloc, level, others.as_slice(), &mut work.search)?;
    work.blocked.push(kept)
}

/// Adds to a search that a cube's moves are found no more, for this question and all later ones.
fn add_cube(alloc: Global, level: &Level, search: &mut Search, cube: &[Lit]) -> Result<(), NoMemory>
    requires ready { IsLevel level.now }
    requires atoms { search.old.atoms ≡ length (upper level.now) }
    requires inside { (l : Lit) → IsIn l cube.now → holds (upper level.now) l.atom ≡ true }
    ensures added { OnOk result (AddsTo search.old search.new (codes (upper level.now) (map opposite cube.now))) }
    ensures unchanged { OnErr result (search.new ≡ search.old) }
{
    let others = opposites(alloc, cube)?;
    add_literals(alloc, level, others.as_slice(), search)
}

/// Leaves a cube out of this question and all later ones. `NoMemory`: memory was refused, and all is as it was.
pub fn keep_cube(
    alloc: Global,
    level: &Level,
    budget: u64,
    work: &mut Work,
    cube: &[Lit],
) -> Result<(), NoMemory>
    requires ready { IsLevel level.now }
    requires settled { IsSettled level.now budget work.old }
    requires inside { (l : Lit) → IsIn l cube.now → holds (upper level.now) l.atom ≡ true }
    ensures settled { IsSettled level.now budget work.new }
    ensures more { OnOk result (work.new.kept.items ≡ work.old.kept.items ++ cube.now ∷ []) }
    ensures kept { OnErr result (work.new.kept.items ≡ work.old.kept.items) }
    ensures outer { work.new.outer ≡ work.old.outer }
    ensures region { work.new.region ≡ work.old.region }
    ensures ordered { work.new.ordered ≡ work.old.ordered }
    ensures blocked { work.new.blocked ≡ work.old.blocked }
    ensures set { work.new.set ≡ work.old.set }
    ensures last { work.new.last ≡ work.old.last }
    ensures placed { work.new.search.count ≡ work.old.search.count }
    ensures learned { Learns level.now work.old work.new }
{
    let kept = List::from_slice(alloc, cube)?;
    work.kept.reserve(1)?;
    add_cube(alloc, level, &mut work.search, cube)?;
    // There is room for it.
    let _pushed = work.kept.push(kept);
    Ok(())
}
