//! Sets of atoms, read from their texts.
ghost use Rattle.std.specs.Prelude.{◌≡◌, ◌++◌, [], ℕ, List, IfOk, IfSome, IsTrue, MatchOption, codes, false, get_or, length, nat_lt, option_map, replicate};
ghost use Rattle.std.specs.List.{list_all};
ghost use Rattle.asp_bits.specs.Places.{true_places};
ghost use Rattle.asp_defs.specs.Games.{ascends};
ghost use Rattle.asp_defs.specs.Sets.{set_of_text};
ghost use Rattle.asp_sets.specs.Readable.{AreReadable};
ghost use Rattle.asp_sets.specs.Taking.{Takes, member_text, inner_set};

use crate::suffix::before_member;
use asp_bits::Bits;
use asp_defs::{Bases, GroundAtom, NoMemory};
use std::alloc::Global;

/// The numbers of the first level's atoms.
fn first_base(bases: &Bases) -> &[u32]
    ensures { result.now ≡ get_or bases.now.members 1 [] }
{
    match bases.members.as_slice().get(1) {
        Some(base) => base.as_slice(),
        None => &[],
    }
}

/// What stands between the braces of the text, where it has both.
fn between_braces(text: &[u8]) -> Option<&[u8]>
    ensures { MatchOption result
        ((inner : List ℕ) → codes "{" ++ inner ++ codes "}" ≡ text.now → ⊥)
        (λ inner. codes "{" ++ inner.now ++ codes "}" ≡ text.now) }
{
    match text {
        [b'{', inner @ .., b'}'] => Some(inner),
        _ => None,
    }
}

/// The text behind a comma and a blank.
fn behind_comma(alloc: Global, text: &[u8]) -> Result<Vec<u8>, NoMemory>
    ensures { IfOk result (λ led. led.items ≡ codes ", " ++ text.now) }
{
    let mut led = Vec::from_slice(alloc, b", ")?;
    led.extend_from_slice(text)?;
    Ok(led)
}

/// Takes atoms of the base off the end of the text, the last ones first, each where it stands there behind a comma and a
/// blank, and puts them into the set. The text that is left.
fn take_members<'a>(atoms: &[GroundAtom], base: &[u32], text: &'a [u8], set: &mut Bits) -> &'a [u8]
    requires within { IsTrue (list_all (λ k. nat_lt k (length atoms.now)) base.now) }
    requires ascending { IsTrue (ascends base.now) }
    requires fresh { set.old ≡ replicate (length atoms.now) false }
    ensures taken { Takes (member_text atoms.now) text.now base.now result.now (true_places set.new) }
    ensures long { length set.new ≡ length atoms.now }
{
    let mut left = text;
    for at in (0..base.len()).rev() {
        let number = base[at];
        if let Some(before) = before_member(left, &atoms[number as usize]) {
            set.set(number, true);
            left = before;
        }
    }
    left
}

/// The set of the first level's atoms whose text, but for the braces, is this one, which isn't empty.
fn read_members(alloc: Global, bases: &Bases, text: &[u8]) -> Result<Option<Bits>, NoMemory>
    requires readable { AreReadable bases.now }
    requires some { text.now ≡ [] → ⊥ }
    ensures set { IfOk result (λ set. option_map true_places set ≡ inner_set bases.now text.now) }
    ensures places { IfOk result (λ set. IfSome set (λ values. length values ≡ length bases.now.atoms)) }
{
    // In front of the first atom, too, stand a comma and a blank.
    let led = behind_comma(alloc, text)?;
    let mut set = Bits::new(alloc, bases.atoms.len() as u32)?;
    let left = take_members(
        bases.atoms.as_slice(),
        first_base(bases),
        led.as_slice(),
        &mut set,
    );
    if left.is_empty() {
        Ok(Some(set))
    } else {
        Ok(None)
    }
}

/// The set of the first level's atoms whose text, but for the braces, is this one.
fn read_inner(alloc: Global, bases: &Bases, text: &[u8]) -> Result<Option<Bits>, NoMemory>
    requires { AreReadable bases.now }
    ensures set { IfOk result (λ set. option_map true_places set ≡ inner_set bases.now text.now) }
    ensures places { IfOk result (λ set. IfSome set (λ values. length values ≡ length bases.now.atoms)) }
{
    if text.is_empty() {
        let set = Bits::new(alloc, bases.atoms.len() as u32)?;
        Ok(Some(set))
    } else {
        read_members(alloc, bases, text)
    }
}

/// The set of the first level's atoms whose text this is, if there is one. It has a place for each atom of the bases.
///
/// The text is read once, from its end, beside the atoms: one that doesn't stand at the end of what is left is passed over.
///
/// # Errors
///
/// Memory ran out.
pub fn read_set(alloc: Global, bases: &Bases, text: &[u8]) -> Result<Option<Bits>, NoMemory>
    requires { AreReadable bases.now }
    ensures set { IfOk result (λ set. option_map true_places set ≡ set_of_text bases.now text.now) }
    ensures places { IfOk result (λ set. IfSome set (λ values. length values ≡ length bases.now.atoms)) }
{
    match between_braces(text) {
        Some(inner) => read_inner(alloc, bases, inner),
        None => Ok(None),
    }
}
