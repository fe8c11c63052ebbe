//! Two games.
ghost use Rattle.std.specs.Prelude.{◌≡◌, true, false, [], ◌∷◌, IfOk};
ghost use Rattle.store_tests.specs.Games.{atom_of, rule_of, game_of_level, two_choices, no_rules};

use asp_defs::{Bases, Game, GroundAtom, GroundRule, List, Name, NoMemory, Quant};
use std::alloc::Global;

fn atom(alloc: Global, letter: u8) -> Result<GroundAtom, NoMemory>
    ensures { IfOk result (λ atom. atom ≡ atom_of letter) }
{
    let letters = [letter];
    Ok(GroundAtom {
        name: Name::from_slice(alloc, &letters)?,
        args: List::new(alloc),
    })
}

fn rule(alloc: Global, choice: bool, head: &[u32], pos: &[u32]) -> Result<GroundRule, NoMemory>
    ensures { IfOk result (λ rule. rule ≡ rule_of choice head.now pos.now) }
{
    Ok(GroundRule {
        choice,
        head: List::from_slice(alloc, head)?,
        pos: List::from_slice(alloc, pos)?,
        neg: List::new(alloc),
    })
}

fn one<T: Drop>(alloc: Global, first: T) -> Result<List<T>, NoMemory>
    ensures { IfOk result (λ list. list ≡ first ∷ []) }
{
    let mut list = List::new(alloc);
    list.push(first)?;
    Ok(list)
}

fn two<T: Drop>(alloc: Global, first: T, second: T) -> Result<List<T>, NoMemory>
    ensures { IfOk result (λ list. list ≡ first ∷ second ∷ []) }
{
    let mut list = one(alloc, first)?;
    list.push(second)?;
    Ok(list)
}

fn three<T: Drop>(alloc: Global, first: T, second: T, third: T) -> Result<List<T>, NoMemory>
    ensures { IfOk result (λ list. list ≡ first ∷ second ∷ third ∷ []) }
{
    let mut list = two(alloc, first, second)?;
    list.push(third)?;
    Ok(list)
}

/// The bases of an existential level that has all atoms.
fn bases(alloc: Global, atoms: List<GroundAtom>, numbers: &[u32]) -> Result<Bases, NoMemory>
    ensures { IfOk result (λ bases. bases ≡ record { atoms = atoms; members = [] ∷ numbers.now ∷ numbers.now ∷ [] }) }
{
    let first = List::from_slice(alloc, numbers)?;
    let last = List::from_slice(alloc, numbers)?;
    let members = three(alloc, List::new(alloc), first, last)?;
    Ok(Bases { atoms, members })
}

/// The game of an existential level with these bases and rules, and of these constraints.
fn existential(
    alloc: Global,
    bases: Bases,
    rules: List<GroundRule>,
    constraints: List<GroundRule>,
) -> Result<Game, NoMemory>
    ensures { IfOk result (λ game. game ≡ game_of_level bases rules constraints) }
{
    Ok(Game {
        quants: List::from_slice(alloc, &[Quant::Exists])?,
        bases,
        rules: two(alloc, rules, constraints)?,
        bounds: two(alloc, List::new(alloc), List::new(alloc))?,
    })
}

fn choices(alloc: Global) -> Result<List<GroundRule>, NoMemory>
    ensures { IfOk result (λ rules. rules ≡ rule_of true (0 ∷ []) [] ∷ rule_of true (1 ∷ []) [] ∷ []) }
{
    let first = rule(alloc, true, &[0], &[])?;
    let second = rule(alloc, true, &[1], &[])?;
    two(alloc, first, second)
}

fn not_both(alloc: Global) -> Result<List<GroundRule>, NoMemory>
    ensures { IfOk result (λ rules. rules ≡ rule_of false [] (0 ∷ 1 ∷ []) ∷ []) }
{
    let rule = rule(alloc, false, &[], &[0, 1])?;
    one(alloc, rule)
}

fn letters(alloc: Global) -> Result<List<GroundAtom>, NoMemory>
    ensures { IfOk result (λ atoms. atoms ≡ atom_of 97 ∷ atom_of 98 ∷ []) }
{
    let first = atom(alloc, b'a')?;
    let second = atom(alloc, b'b')?;
    two(alloc, first, second)
}

/// `%@exists {a}. {b}. %@constraint :- a, b.`
pub fn two_choices(alloc: Global) -> Result<Game, NoMemory>
    ensures { IfOk result (λ game. game ≡ two_choices) }
{
    let bases = bases(alloc, letters(alloc)?, &[0, 1])?;
    existential(alloc, bases, choices(alloc)?, not_both(alloc)?)
}

/// `%@exists`
pub fn no_rules(alloc: Global) -> Result<Game, NoMemory>
    ensures { IfOk result (λ game. game ≡ no_rules) }
{
    let bases = bases(alloc, List::new(alloc), &[])?;
    existential(alloc, bases, List::new(alloc), List::new(alloc))
}
