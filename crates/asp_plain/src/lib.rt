//! The coherence and the quantified answer sets of a game of at most 20 atoms, by trying every set of atoms as the
//! definitions say. It tries sets and shares no code with the search, so that a search can be held against it.
//!
//! In reading order: `masks` turns the levels of a game into rules over sets of atoms, `bounds` into bounds over them,
//! `left` says what is left of rules where some atoms are decided, `answers` makes the table of a level's answer sets,
//! `value` has the verdict by these tables, and `sets` lists the sets that are won.
//!
//! What is tried: all sets over a level's base, once before any verdict. The table of a level has a truth value for
//! each mask up to that of the base, so at most 2 to the power of the game's number of atoms. Sets that have the same
//! atoms among those decided so far are tried together. First those are taken out that are no models: an atom of a
//! rule that is left, of one with the fewest atoms, so that what breaks ends soonest, is decided in both ways. Then
//! those that don't meet the bounds, one by one. Then those that a smaller model of their reduct beats: an atom that such a rule has in its positive body or its head is
//! decided for the smaller set alone, and where that lacks it for the set later; one of the negative body, and the
//! head of a choice, for the set. An atom of the lower base is decided for both at once, since an outer move fixes it.
//! Rules that can't matter any more are left out, the decided atoms are taken out of the others, and where many are
//! left, at every fourth number of open atoms, equal ones are dropped. So a level takes steps in the order of 2 to the
//! power of its lower base's atoms times 3 to the power of its own at most, and far fewer where rules leave little
//! open. Nothing is inferred and nothing is learned. One table serves all outer moves of a level.
#![tactic(auto)]

ghost use Rattle.std.specs.Prelude.{◌≡◌, ◌≤◌, length, map, All, Some, IfOk};
ghost use Rattle.std.specs.List.{slice_get};
ghost use Rattle.asp_bits.specs.Places.{true_places};
ghost use Rattle.asp_defs.specs.declared.syntax.Quant.TheVariants.{Exists};
ghost use Rattle.asp_defs.specs.Games.{IsValid};
ghost use Rattle.asp_defs.specs.Values.{is_coherent, quantified_answer_sets};
ghost use Rattle.asp_plain.specs.Masks.{most_masked};

mod answers;
mod bounds;
mod left;
mod masks;
mod sets;
mod value;

use asp_bits::Bits;
use asp_defs::{Game, List, NoMemory};
use std::alloc::Global;

/// The most atoms of a game whose sets are tried.
pub const MOST_ATOMS: usize = 20;

/// Whether the game is coherent (Amendola, Ricca and Truszczynski 2019), for a game of at most 20 atoms.
///
/// Each level first gets the table of its answer sets, by trying all sets over its base: steps in the order of 2 to
/// the power of the lower base's atoms times 3 to the power of its own at most, each with a pass over those of the
/// level's distinct rules that are left and, where there are many, at every fourth number of open atoms a sort of
/// them. Then each set is looked up at most once, until the verdict is settled. Memory is taken before the first is
/// looked up: for each level one truth value for each mask up to its base's; and for one level at a time its rules,
/// and room for as many after each atom along one way of deciding them. `NoMemory` is the only refusal.
pub fn coherent(alloc: Global, game: &Game) -> Result<bool, NoMemory>
    requires valid { IsValid game.now }
    requires few { length game.now.bases.atoms ≤ most_masked }
    ensures { IfOk result (λ answer. answer ≡ is_coherent game.now) }
{
    let levels = masks::masked_levels(alloc, game)?;
    Ok(value::value(game.quants.as_slice(), levels.as_slice(), 0))
}

/// The quantified answer sets of a game of at most 20 atoms whose first level is existential, in the order of
/// interpretations: of two sets the one that lacks the first atom on which they differ comes first.
///
/// Each is an interpretation of all atoms of the game. It takes the time that `coherent` takes where no set of the
/// first level settles its verdict, and beside that memory some for the sets that it finds. `NoMemory` is the only
/// refusal.
pub fn listing(alloc: Global, game: &Game) -> Result<List<Bits>, NoMemory>
    requires valid { IsValid game.now }
    requires few { length game.now.bases.atoms ≤ most_masked }
    requires existential { slice_get game.now.quants 0 ≡ Some Exists }
    ensures sets { IfOk result (λ sets. map true_places sets ≡ quantified_answer_sets game.now) }
    ensures places { IfOk result (All (λ set. length set ≡ length game.now.bases.atoms)) }
{
    let levels = masks::masked_levels(alloc, game)?;
    let behind = &game.quants.as_slice()[1..];
    let won = sets::won_sets(alloc, behind, levels.as_slice())?;
    sets::interpretations(alloc, game.bases.atoms.len() as u32, won.as_slice())
}
