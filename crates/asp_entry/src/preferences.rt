//! Which of two atoms is taken. It decides how short a cube gets, and nothing else, so contracts don't speak of the order.
ghost use Rattle.std.specs.Prelude.{◌≡◌, ◌⊎◌, ◌<◌, ◌∷◌, [], ℕ, IsTrue, IfOk, length, Some};
ghost use Rattle.asp_bits.specs.Places.{true_places};
ghost use Rattle.asp_reduct.specs.Bounds.{are_below};
ghost use Rattle.asp_entry.specs.Taken.{IsTaken};

use asp_bits::Bits;
use asp_defs::NoMemory;
use std::alloc::Global;

/// Where an atom stands by what its literal is worth: of two the lesser one comes first.
#[derive(Clone, Copy, PartialEq, Eq, PartialOrd, Ord)]
pub struct Standing {
    /// How late its base comes.
    rank: u32,
    /// The less, the more rules its literal serves.
    unserved: u32,
}

/// How late an atom is taken: of two the lesser one comes first.
#[derive(Clone, Copy, PartialEq, Eq, PartialOrd, Ord)]
pub struct Lateness {
    /// Whether it is none of those that come before all others.
    is_new: bool,
    standing: Standing,
    atom: u32,
}

/// A rule that no atom serves yet, by its place, with the atom that it gets first.
#[derive(Clone, Copy, PartialEq, Eq, PartialOrd, Ord)]
pub struct Turn {
    pub atom: Lateness,
    pub rule: usize,
}

/// What tells which of two atoms is taken.
#[derive(Clone, Copy)]
pub struct Preferences<'a> {
    /// The atoms before all others.
    pub kept: &'a Bits,
    /// Where each atom stands.
    pub standings: &'a [Standing],
}

impl Preferences<'_> {
    /// Where the atom stands among all.
    pub fn lateness(&self, atom: u32) -> Lateness
        requires atom { atom < length self.now.kept.now }
        requires standings { length self.now.standings.now ≡ length self.now.kept.now }
    {
        Lateness {
            is_new: !self.kept.get(atom),
            standing: self.standings[atom as usize],
            atom,
        }
    }
}

/// The one of both that is taken before the other.
fn earlier(best: Option<u32>, atom: u32, preferences: &Preferences<'_>) -> u32
    requires best { (a : ℕ) → best ≡ Some a → a < length preferences.now.kept.now }
    requires atom { atom < length preferences.now.kept.now }
    requires standings { length preferences.now.standings.now ≡ length preferences.now.kept.now }
    ensures { (result ≡ atom) ⊎ (best ≡ Some result) }
{
    match best {
        Some(best) if preferences.lateness(best) <= preferences.lateness(atom) => best,
        _ => atom,
    }
}

/// The one that is taken first, of an atom and another whose truth must be this one.
fn earlier_of_truth(
    best: Option<u32>,
    atom: u32,
    truth: bool,
    set: &Bits,
    preferences: &Preferences<'_>,
) -> Option<u32>
    requires best { (a : ℕ) → best ≡ Some a → a < length preferences.now.kept.now }
    requires atom { atom < length set.now }
    requires standings { length preferences.now.standings.now ≡ length preferences.now.kept.now }
    requires same_length { length preferences.now.kept.now ≡ length set.now }
    ensures { IsTaken (true_places set.now) truth (atom ∷ []) best result }
{
    if set.get(atom) == truth {
        return Some(earlier(best, atom, preferences));
    }
    best
}

/// The one that is taken first, of an atom and those of these atoms whose truth is this one.
pub fn first_of_truth(
    best: Option<u32>,
    atoms: &[u32],
    truth: bool,
    set: &Bits,
    preferences: &Preferences<'_>,
) -> Option<u32>
    requires best { (a : ℕ) → best ≡ Some a → a < length preferences.now.kept.now }
    requires below { IsTrue (are_below (length set.now) atoms.now) }
    requires standings { length preferences.now.standings.now ≡ length preferences.now.kept.now }
    requires same_length { length preferences.now.kept.now ≡ length set.now }
    ensures { IsTaken (true_places set.now) truth atoms.now best result }
{
    let mut best = best;
    for atom in atoms {
        best = earlier_of_truth(best, *atom, truth, set, preferences);
    }
    best
}

/// So many atoms that stand behind all others. `NoMemory`: memory was refused.
pub fn last_standings(alloc: Global, count: u32) -> Result<Vec<Standing>, NoMemory>
    ensures { IfOk result (λ standings. length standings.items ≡ count) }
{
    let last = Standing {
        rank: u32::MAX,
        unserved: u32::MAX,
    };
    let mut standings = Vec::new(alloc);
    standings.resize(count as usize, last)?;
    Ok(standings)
}

/// Gives the atoms of a base this rank: those of the least rank come first.
pub fn rank_base(standings: &mut [Standing], base: &[u32], rank: u32)
    ensures { length standings.new ≡ length standings.old }
{
    for atom in base {
        let place = *atom as usize;
        if place < standings.len() {
            standings[place].rank = rank;
        }
    }
}

/// Counts one more rule that it serves for each of the atoms whose truth is this one.
pub fn count_served(standings: &mut [Standing], atoms: &[u32], truth: bool, set: &Bits)
    requires below { IsTrue (are_below (length set.now) atoms.now) }
    requires same_length { length standings.old ≡ length set.now }
    ensures { length standings.new ≡ length standings.old }
{
    for atom in atoms {
        if set.get(*atom) == truth {
            let place = *atom as usize;
            standings[place].unserved = standings[place].unserved.saturating_sub(1);
        }
    }
}
