//! The call `evaluate`.
ghost use Rattle.std.specs.Prelude.{◌≡◌, ◌+◌, IsTrue, IfOk, length};
ghost use Rattle.asp_bits.specs.Places.{true_places};
ghost use Rattle.asp_defs.specs.Games.{IsValid, level_count, base, rules_of, is_subset};
ghost use Rattle.asp_eval.specs.Covers.{IsJudgement};
ghost use Rattle.asp_eval.specs.Decided.{IsDecided};

use crate::broken::fewest_broken;
use crate::outer::outer_body;
use crate::thinning::covering_atoms;
use asp_bits::Bits;
use asp_defs::{Game, GroundRule, NoMemory, Quant};
use asp_entry::{Cube, places};
use std::alloc::Global;

/// The value of an outer move behind the last level, and a cube of outer moves with that value.
#[derive(Debug, Drop)]
pub struct Judged {
    /// Whether no constraint is broken.
    pub verdict: bool,
    /// The move is in it, and all moves in it have the verdict.
    pub cube: Cube,
}

/// Where the body of some constraint is true, and atoms on which that rests.
#[derive(Drop)]
struct Decided {
    verdict: bool,
    atoms: Bits,
}

/// The constraints.
fn constraints(game: &Game) -> &[GroundRule]
    requires { IsValid game.now }
    ensures { result.now ≡ rules_of game.now (level_count game.now + 1) }
{
    game.rules.as_slice()[game.quants.len()].as_slice()
}

/// The atoms of the last level and of those before.
fn outer_atoms(game: &Game) -> &[u32]
    requires { IsValid game.now }
    ensures { result.now ≡ base game.now (level_count game.now) }
{
    game.bases.members.as_slice()[game.quants.len()].as_slice()
}

/// Whether no constraint is broken, and atoms on which that rests. `NoMemory`: memory was refused.
fn decide(alloc: Global, game: &Game, set: &Bits) -> Result<Decided, NoMemory>
    requires valid { IsValid game.now }
    requires length { length set.now ≡ length game.now.bases.atoms }
    requires set { IsTrue (is_subset (true_places set.now) (base game.now (level_count game.now))) }
    ensures { IfOk result (λ decided.
        IsDecided game.now (true_places set.now) (length set.now) decided.verdict decided.atoms) }
{
    let rules = constraints(game);
    let outer = places(alloc, outer_atoms(game), set.len())?;
    if let Some(broken) = fewest_broken(rules, set, &outer) {
        let atoms = outer_body(alloc, &rules[broken.rule], &outer)?;
        return Ok(Decided {
            verdict: false,
            atoms,
        });
    }
    let bases = &game.bases.members.as_slice()[..game.quants.len() + 1];
    let atoms = covering_atoms(alloc, rules, bases, last_quant(game), set, &outer)?;
    Ok(Decided {
        verdict: true,
        atoms,
    })
}

/// The quantifier of the last level.
fn last_quant(game: &Game) -> Quant {
    game.quants
        .as_slice()
        .last()
        .copied()
        .unwrap_or(Quant::Exists)
}

/// The value of an outer move behind the last level, and a cube that holds the move and moves of that value alone, all of
/// whose atoms stand in a constraint. `NoMemory`: memory was refused.
pub fn evaluate(alloc: Global, game: &Game, set: &Bits) -> Result<Judged, NoMemory>
    requires valid { IsValid game.now }
    requires length { length set.now ≡ length game.now.bases.atoms }
    requires set { IsTrue (is_subset (true_places set.now) (base game.now (level_count game.now))) }
    ensures { IfOk result (λ judged.
        IsJudgement game.now (true_places set.now) judged.verdict judged.cube) }
{
    let decided = decide(alloc, game, set)?;
    let cube = Cube::of_places(alloc, &decided.atoms, set)?;
    Ok(Judged {
        verdict: decided.verdict,
        cube,
    })
}
