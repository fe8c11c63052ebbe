//! The bodies of the rules that head an atom: their literals, and in how many ways one of each can be taken.
ghost use Rattle.std.specs.Prelude.{◌≡◌, ◌<◌, ◌*◌, ◌&&◌, ◌==◌, ◌||◌, min, true, false, length, get_or};
ghost use Rattle.std.specs.Bool.{beq};
ghost use Rattle.std.specs.List.{list_any};
ghost use Rattle.asp_completion.specs.Codes.{literal as literal_of};
ghost use Rattle.asp_completion.specs.Levels.{IsLevel};
ghost use Rattle.asp_completion.specs.Supporters.{body_size as size_of, body_literals, no_literal, ways as ways_of, stands, shares as shares_of, AreFew};
ghost use Rattle.asp_completion.specs.Chains.{IsChain, rules_along, first_of, rest_of};

use crate::heads::{Chain, Heads};
use crate::level::Level;
use asp_defs::{GroundRule, Lit};

/// Of how many rules the bodies are distributed, at most.
const MOST_RULES: usize = 7;

/// Into how many clauses, at most.
const MOST_CLAUSES: usize = 64;

/// How many literals a body has.
pub fn body_size(rule: &GroundRule) -> usize
    ensures { result ≡ size_of rule.now }
{
    let pos = rule.pos.as_slice();
    let neg = rule.neg.as_slice();
    pos.len() + neg.len()
}

/// The literal at a place of a body.
pub fn body_literal(rule: &GroundRule, place: usize) -> Lit
    requires { place < size_of rule.now }
    ensures { result ≡ get_or (body_literals rule.now) place no_literal }
{
    let pos = rule.pos.as_slice();
    if place < pos.len() {
        return Lit {
            atom: pos[place],
            positive: true,
        };
    }
    let neg = rule.neg.as_slice();
    Lit {
        atom: neg[place - pos.len()],
        positive: false,
    }
}

/// Whether a literal stands in a clause.
pub fn contains(clause: &[Lit], atom: u32, positive: bool) -> bool
    ensures { result ≡ stands clause.now (literal_of positive atom) }
{
    clause
        .iter()
        .any(|other| other.atom == atom && other.positive == positive)
}

/// Whether one of the atoms, or its negation, stands in a clause.
fn contains_one(clause: &[Lit], atoms: &[u32], positive: bool) -> bool
    ensures { result ≡ list_any (λ a. stands clause.now (literal_of positive a)) atoms.now }
{
    atoms.iter().any(|atom| contains(clause, *atom, positive))
}

/// Whether a literal of the body stands in a clause.
pub fn shares(clause: &[Lit], rule: &GroundRule) -> bool
    ensures { result ≡ shares_of clause.now rule.now }
{
    contains_one(clause, rule.pos.as_slice(), true)
        || contains_one(clause, rule.neg.as_slice(), false)
}

/// The rule of a chain's first link.
pub fn first<'a>(level: &'a Level, heads: &Heads, chain: Chain) -> &'a GroundRule
    requires ready { IsLevel level.now }
    requires chain { IsChain level.now heads.now chain }
    requires some { 0 < chain.count }
    ensures { result.now ≡ first_of level.now heads.now chain }
{
    let rules = level.rules();
    let link = heads.links[chain.link];
    let place = link.rule;
    &rules[place]
}

/// A chain without its first link.
pub fn rest(heads: &Heads, chain: Chain) -> Chain
    requires some { 0 < chain.count }
    requires inside { chain.link < length heads.now.links.items }
    ensures { result ≡ rest_of heads.now chain }
{
    let link = heads.links[chain.link];
    Chain {
        count: chain.count - 1,
        link: link.next,
    }
}

/// A product, or one more than the most clauses where it is more.
fn product(left: usize, right: usize) -> usize
    ensures { result ≡ min 65 (left * right) }
{
    left.saturating_mul(right).min(MOST_CLAUSES + 1)
}

/// In how many ways one literal can be taken of each body, or one more than the most clauses where there are more ways.
fn ways(level: &Level, heads: &Heads, chain: Chain) -> usize
    requires ready { IsLevel level.now }
    requires chain { IsChain level.now heads.now chain }
    ensures { result ≡ min 65 (ways_of (rules_along level.now heads.now chain)) }
{
    if chain.count == 0 {
        return 1;
    }
    let rule = first(level, heads, chain);
    let size = body_size(rule);
    let others = rest(heads, chain);
    let ways = ways(level, heads, others);
    product(size, ways)
}

/// Whether the bodies of a chain's rules are distributed.
pub fn is_few(level: &Level, heads: &Heads, chain: Chain) -> bool
    requires ready { IsLevel level.now }
    requires chain { IsChain level.now heads.now chain }
    ensures few { result ≡ true → AreFew (rules_along level.now heads.now chain) }
    ensures many { result ≡ false → AreFew (rules_along level.now heads.now chain) → ⊥ }
{
    if chain.count <= 1 {
        return true;
    }
    if chain.count > MOST_RULES {
        return false;
    }
    let ways = ways(level, heads, chain);
    if ways == 0 {
        return false;
    }
    if ways > MOST_CLAUSES {
        return false;
    }
    true
}
