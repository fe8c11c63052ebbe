//! A level of a game, as its moves are looked for.
ghost use Rattle.std.specs.Prelude.{◌≡◌, ◌≤◌, true, length, IfOk};
ghost use Rattle.asp_defs.specs.Games.{level_count, IsValid};
ghost use Rattle.asp_defs.specs.Interpretations.{holds};
ghost use Rattle.asp_completion.specs.Codes.{code as code_of};
ghost use Rattle.asp_completion.specs.Levels.{game_at, upper as upper_of, lower as lower_of, rules_at, bounds_at, IsLevel};

use crate::ranks::ranks;
use asp_defs::{Bound, Game, GroundRule, Lit, NoMemory};
use std::alloc::Global;
use std::sync::Arc;

/// A quantified level of a game, with the places of its atoms.
#[derive(Drop)]
pub struct Level {
    pub game: Arc<Game>,
    /// From 1.
    pub number: u32,
    /// By the atoms of the game: the place in the level's base.
    pub ranks: Vec<u32>,
}

impl Level {
    /// A level of a valid game.
    pub fn new(alloc: Global, game: Arc<Game>, number: u32) -> Result<Level, NoMemory>
        requires valid { IsValid game.value }
        requires first { 1 ≤ number }
        requires last { number ≤ level_count game.value }
        ensures ready { IfOk result (λ level. IsLevel level) }
        ensures game { IfOk result (λ level. game_at level ≡ game.value) }
        ensures number { IfOk result (λ level. level.number ≡ number) }
    {
        let ranks = ranks(alloc, &game, number)?;
        Ok(Level {
            game,
            number,
            ranks,
        })
    }

    /// The level's rules.
    pub fn rules(&self) -> &[GroundRule]
        requires { IsLevel self.now }
        ensures { result.now ≡ rules_at self.now }
    {
        let lists = self.game.rules.as_slice();
        lists[self.number as usize - 1].as_slice()
    }

    /// The level's bounds.
    pub fn bounds(&self) -> &[Bound]
        requires { IsLevel self.now }
        ensures { result.now ≡ bounds_at self.now }
    {
        let lists = self.game.bounds.as_slice();
        lists[self.number as usize - 1].as_slice()
    }

    /// The atoms of the level's base, ascending.
    pub fn upper(&self) -> &[u32]
        requires { IsLevel self.now }
        ensures { result.now ≡ upper_of self.now }
    {
        let bases = self.game.bases.members.as_slice();
        bases[self.number as usize].as_slice()
    }

    /// How many atoms the level's base has.
    pub fn size(&self) -> u32
        requires { IsLevel self.now }
        ensures is { result ≡ length (upper_of self.now) }
        ensures few { result ≤ 262144 }
    {
        let base = self.upper();
        base.len() as u32
    }

    /// The atoms of the base below, ascending.
    pub fn lower(&self) -> &[u32]
        requires { IsLevel self.now }
        ensures { result.now ≡ lower_of self.now }
    {
        let bases = self.game.bases.members.as_slice();
        bases[self.number as usize - 1].as_slice()
    }

    /// How many atoms the game has.
    pub fn atoms(&self) -> u32
        requires { IsLevel self.now }
        ensures { result ≡ length (game_at self.now).bases.atoms }
    {
        self.game.bases.atoms.len() as u32
    }

    /// The code of a literal of the level's base.
    pub fn code(&self, literal: Lit) -> u32
        requires ready { IsLevel self.now }
        requires inside { holds (upper_of self.now) literal.atom ≡ true }
        ensures { result ≡ code_of (upper_of self.now) literal }
    {
        let rank = self.ranks[literal.atom as usize];
        if literal.positive {
            2 * rank + 1
        } else {
            2 * rank
        }
    }
}
