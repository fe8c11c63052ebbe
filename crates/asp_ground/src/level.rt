//! The instances of levels.
ghost use Rattle.std.specs.Prelude.{◌≡◌, ◌++◌, get_or, [], IfOk};
ghost use Rattle.std.specs.List.{flat_map};
ghost use Rattle.asp_template.specs.Ranks.{IsOrdered};
ghost use Rattle.asp_template.specs.Compiled.{compiled_instances};

use asp_atoms::Vocabulary;
use asp_defs::{GroundRule, List, NoMemory, Rule};
use asp_template::add_rules;
use std::alloc::Global;

/// The ranks of the universe of a level, and none past the last level.
pub fn universe_of(universes: &[List<u32>], level: usize) -> &[u32]
    ensures { result.now ≡ get_or universes.now level [] }
{
    if level < universes.len() {
        universes[level].as_slice()
    } else {
        &[]
    }
}

/// The instances of the rules of a level, and behind them those of its consistency constraints.
pub fn level_rules(
    alloc: Global,
    vocabulary: &Vocabulary,
    level: usize,
    rules: &[Rule],
    constraints: &[Rule],
) -> Result<List<GroundRule>, NoMemory>
    requires { IsOrdered vocabulary.now }
    ensures { IfOk result (λ instances. instances
        ≡ flat_map (compiled_instances vocabulary.now (get_or vocabulary.now.universes level []))
        (rules.now ++ constraints.now)) }
{
    let ranks = universe_of(vocabulary.universes.as_slice(), level);
    let mut out = List::new(alloc);
    add_rules(alloc, &mut out, vocabulary, ranks, rules)?;
    add_rules(alloc, &mut out, vocabulary, ranks, constraints)?;
    Ok(out)
}
