//! Which rules of a level head an atom.
ghost use Rattle.std.specs.Prelude.{◌≡◌, ◌<◌, ◌≤◌, ◌+◌, ℕ, length, get_or, drop, IfOk, OnOk};
ghost use Rattle.asp_completion.specs.Levels.{game_at, lower, rules_at, IsLevel};
ghost use Rattle.asp_completion.specs.Supporters.{supporters};
ghost use Rattle.asp_completion.specs.Chains.{no_chain, no_rule, AreLower, PushesLink, HasHeads, Headed};

use crate::level::Level;
use asp_defs::{GroundRule, NoMemory};
use std::alloc::Global;

/// A rule that heads an atom.
#[derive(Clone, Copy)]
pub struct Link {
    /// The place of the rule among the level's rules.
    pub rule: usize,
    /// The next link of the atom's chain, where it has one.
    pub next: usize,
}

/// The rules that head an atom, as a chain of links.
#[derive(Clone, Copy)]
pub struct Chain {
    /// How many links it has.
    pub count: usize,
    /// The first link, where it has one.
    pub link: usize,
}

/// By the atoms of a game: which rules of a level head them.
#[derive(Drop)]
pub struct Heads {
    pub chains: Vec<Chain>,
    pub links: Vec<Link>,
}

/// Puts a rule before those of the atom's chain.
fn push_link(heads: &mut Heads, atom: u32, rule: usize) -> Result<(), NoMemory>
    requires inside { atom < length heads.old.chains.items }
    requires counted { (get_or heads.old.chains.items atom no_chain).count ≤ length heads.old.links.items }
    ensures { OnOk result (PushesLink atom rule heads.old heads.new) }
{
    let chain = heads.chains[atom as usize];
    let link = heads.links.len();
    heads.links.push(Link {
        rule,
        next: chain.link,
    })?;
    heads.chains[atom as usize] = Chain {
        count: chain.count + 1,
        link,
    };
    Ok(())
}

/// The rule at a place.
fn rule_at(level: &Level, place: usize) -> &GroundRule
    requires ready { IsLevel level.now }
    requires place { place < length (rules_at level.now) }
    ensures { result.now ≡ get_or (rules_at level.now) place no_rule }
{
    let rules = level.rules();
    &rules[place]
}

/// Puts the rule at a place before those of the chains of its head's atoms.
fn add_heads(level: &Level, place: usize, heads: &mut Heads) -> Result<(), NoMemory>
    requires ready { IsLevel level.now }
    requires place { place < length (rules_at level.now) }
    requires later { Headed level.now (supporters (drop (place + 1) (rules_at level.now))) heads.old }
    ensures { OnOk result (Headed level.now (supporters (drop place (rules_at level.now))) heads.new) }
{
    let rule = rule_at(level, place);
    let atoms = rule.head.as_slice();
    for atom in atoms {
        push_link(heads, *atom, place)?;
    }
    Ok(())
}

/// Chains of no rules.
fn no_heads(alloc: Global, level: &Level) -> Result<Heads, NoMemory>
    requires ready { IsLevel level.now }
    ensures { IfOk result (λ heads. Headed level.now (supporters (drop (length (rules_at level.now)) (rules_at level.now))) heads) }
{
    let none = Chain { count: 0, link: 0 };
    let chains = Vec::from_elem(alloc, none, level.atoms() as usize)?;
    let links = Vec::new(alloc);
    Ok(Heads { chains, links })
}

/// Which rules of the level head the atoms of the game, in the order of the rules; a rule whose head has an atom twice stands
/// there twice.
pub fn find_heads(alloc: Global, level: &Level) -> Result<Heads, NoMemory>
    requires ready { IsLevel level.now }
    ensures { IfOk result (λ heads. HasHeads level.now heads) }
{
    let rules = level.rules();
    let mut heads = no_heads(alloc, level)?;
    for place in (0..rules.len()).rev() {
        add_heads(level, place, &mut heads)?;
    }
    Ok(heads)
}

/// By the atoms of the game: whether the base below has it.
pub fn lower_table(alloc: Global, level: &Level) -> Result<Vec<bool>, NoMemory>
    requires ready { IsLevel level.now }
    ensures { IfOk result (λ table. AreLower (lower level.now) (length (game_at level.now).bases.atoms) table.items) }
{
    let base = level.lower();
    let mut table = Vec::from_elem(alloc, false, level.atoms() as usize)?;
    for atom in base {
        table[*atom as usize] = true;
    }
    Ok(table)
}
