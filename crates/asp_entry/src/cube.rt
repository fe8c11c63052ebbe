//! Cubes of outer atoms.
ghost use Rattle.std.specs.Prelude.{◌≡◌, ◌+◌, ◌<◌, ◌≤◌, ◌&&◌, ℕ, List, [], length, map, IsTrue, IsOk, IfOk, OnOk, OnErr};
ghost use Rattle.asp_bits.specs.Places.{true_places};
ghost use Rattle.asp_defs.specs.Entries.{lit_true, cube_holds};
ghost use Rattle.asp_entry.specs.Cubes.{lits_ascend, literal_in, are_lits_below, HaveCommonSet, HasMembersOfBoth};

use crate::literals::literals;
use crate::merge::merge;
use asp_bits::Bits;
use asp_defs::{Lit, NoMemory};
use smallvec::SmallVec;
use std::alloc::Global;
use std::marker::Model;

/// A conjunction of literals, which holds an interpretation where all its literals are true in it.
///
/// Contracts see it as the list of its literals, whose atoms strictly ascend. It takes no memory up to eight literals.
#[derive(Debug, Drop)]
pub struct Cube {
    lits: SmallVec<Lit, 8>,
}

impl Model for Cube {
    ghost use Rattle.std.specs.Prelude.{List, IsTrue};
    ghost use Rattle.asp_defs.specs.declared.ground.Lit.{Lit};
    ghost use Rattle.asp_entry.specs.Cubes.{lits_ascend};

    ghost Value = { List Lit };

    ghost view = { λ cube. cube.lits.items };

    ghost invariant = { λ cube. IsTrue (lits_ascend cube.lits.items) };
}

impl Cube {
    /// The cube with no literal, which holds every interpretation. It takes no memory.
    pub fn new(alloc: Global) -> Cube
        ensures { result ≡ [] }
    {
        Cube {
            lits: SmallVec::new(alloc),
        }
    }

    /// The cube of these literals. `NoMemory`: there are more than eight, and memory was refused.
    pub fn from_lits(alloc: Global, lits: &[Lit]) -> Result<Cube, NoMemory>
        requires { IsTrue (lits_ascend lits.now) }
        ensures lits { IfOk result (λ cube. cube ≡ lits.now) }
        ensures fits { length lits.now ≤ 8 → IsOk result }
    {
        let lits = SmallVec::from_slice(alloc, lits)?;
        Ok(Cube { lits })
    }

    /// The cube of the atoms at true places, each as it is in `set`. `NoMemory`: there are more than eight, and memory was
    /// refused.
    pub fn of_places(alloc: Global, atoms: &Bits, set: &Bits) -> Result<Cube, NoMemory>
        requires { length atoms.now ≡ length set.now }
        ensures lits { IfOk result
            (λ cube. cube ≡ map (literal_in (true_places set.now)) (true_places atoms.now)) }
        ensures ascending { IfOk result (λ cube. IsTrue (lits_ascend cube)) }
    {
        let lits = literals(alloc, atoms, set)?;
        Ok(Cube { lits })
    }

    /// The literals.
    pub fn lits(&self) -> &[Lit]
        ensures lits { result.now ≡ self.now }
        ensures ascending { IsTrue (lits_ascend self.now) }
    {
        self.lits.as_slice()
    }

    /// Whether the cube holds an interpretation: all its literals are true in it.
    pub fn holds(&self, set: &Bits) -> bool
        requires { IsTrue (are_lits_below (length set.now) self.now) }
        ensures { result ≡ cube_holds self.now (true_places set.now) }
    {
        all_true(self.lits(), set)
    }

    /// Adds the literals of another cube, so that the cube holds what both held. `NoMemory`: both have more than eight
    /// literals together, and memory was refused; the cube is as before.
    pub fn join(&mut self, alloc: Global, other: &Cube) -> Result<(), NoMemory>
        requires { HaveCommonSet self.old other.now }
        ensures members { OnOk result (HasMembersOfBoth self.old other.now self.new) }
        ensures ascending { OnOk result (IsTrue (lits_ascend self.new)) }
        ensures held { OnOk result
            ((M : List ℕ) → cube_holds self.new M ≡ (cube_holds self.old M && cube_holds other.now M)) }
        ensures fits { length self.old + length other.now ≤ 8 → IsOk result }
        ensures unchanged { OnErr result (self.new ≡ self.old) }
    {
        let joined = merge(alloc, self.lits.as_slice(), other.lits.as_slice())?;
        self.lits = joined;
        Ok(())
    }
}

/// Whether the literal is true.
fn is_true(lit: &Lit, set: &Bits) -> bool
    requires { lit.now.atom < length set.now }
    ensures { result ≡ lit_true (true_places set.now) lit.now }
{
    set.get(lit.atom) == lit.positive
}

/// Whether all of the literals are true.
fn all_true(lits: &[Lit], set: &Bits) -> bool
    requires { IsTrue (are_lits_below (length set.now) lits.now) }
    ensures { result ≡ cube_holds lits.now (true_places set.now) }
{
    for lit in lits {
        if !is_true(lit, set) {
            return false;
        }
    }
    true
}
