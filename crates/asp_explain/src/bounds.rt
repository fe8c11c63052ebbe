//! What is marked for bounds.
ghost use Rattle.std.specs.Prelude.{◌≡◌, ◌∷◌, [], IsTrue, length};
ghost use Rattle.std.specs.List.{list_all};
ghost use Rattle.asp_bits.specs.Places.{true_places};
ghost use Rattle.asp_defs.specs.Bounds.{bound_atoms};
ghost use Rattle.asp_reduct.specs.Bounds.{is_term_below, is_bound_below};
ghost use Rattle.asp_explain.specs.Achieving.{MarksAtoms, MarksTerms, KeepsBounds};

use crate::known::is_blocked;
use crate::rules::false_atom;
use asp_bits::Bits;
use asp_defs::{Bound, Counted};
use asp_entry::{mark, mark_all};

/// Marks the outer atoms of a counted atom and its condition.
fn mark_term(marks: &mut Bits, term: &Counted, outer: &Bits)
    requires below { IsTrue (is_term_below (length outer.now) term.now) }
    requires marks { length marks.old ≡ length outer.now }
    ensures { MarksTerms (true_places outer.now) (term.now ∷ []) marks.old marks.new }
{
    mark(marks, term.atom, outer);
    mark_all(marks, term.pos.as_slice(), outer);
    mark_all(marks, term.neg.as_slice(), outer);
}

/// Marks the outer atoms of all counted atoms and their conditions.
fn mark_terms(marks: &mut Bits, terms: &[Counted], outer: &Bits)
    requires below { IsTrue (list_all (is_term_below (length outer.now)) terms.now) }
    requires marks { length marks.old ≡ length outer.now }
    ensures { MarksTerms (true_places outer.now) terms.now marks.old marks.new }
{
    for term in terms {
        mark_term(marks, term, outer);
    }
}

/// Marks the bound's outer atoms.
fn mark_bound(marks: &mut Bits, bound: &Bound, outer: &Bits)
    requires below { IsTrue (is_bound_below (length outer.now) bound.now) }
    requires marks { length marks.old ≡ length outer.now }
    ensures { MarksAtoms (true_places outer.now) (bound_atoms bound.now) marks.old marks.new }
{
    mark_all(marks, bound.pos.as_slice(), outer);
    mark_all(marks, bound.neg.as_slice(), outer);
    mark_terms(marks, bound.counted.as_slice(), outer);
}

/// Marks the bound's outer atoms, or one that makes its body false, where the body isn't known to be false.
fn keep_bound(marks: &mut Bits, bound: &Bound, set: &Bits, outer: &Bits)
    requires below { IsTrue (is_bound_below (length outer.now) bound.now) }
    requires set { length set.now ≡ length outer.now }
    requires marks { length marks.old ≡ length outer.now }
    ensures { KeepsBounds
        (true_places outer.now) (true_places set.now) (bound.now ∷ []) marks.old marks.new }
{
    if is_blocked(
        bound.pos.as_slice(),
        bound.neg.as_slice(),
        set,
        outer,
        marks,
    ) {
        return;
    }
    match false_atom(bound.pos.as_slice(), bound.neg.as_slice(), set) {
        Some(atom) => mark(marks, atom, outer),
        None => mark_bound(marks, bound, outer),
    }
}

/// Marks outer atoms until all bounds are known to be met, where all are met.
pub fn keep_bounds(marks: &mut Bits, bounds: &[Bound], set: &Bits, outer: &Bits)
    requires below { IsTrue (list_all (is_bound_below (length outer.now)) bounds.now) }
    requires set { length set.now ≡ length outer.now }
    requires marks { length marks.old ≡ length outer.now }
    ensures { KeepsBounds
        (true_places outer.now) (true_places set.now) bounds.now marks.old marks.new }
{
    for bound in bounds {
        keep_bound(marks, bound, set, outer);
    }
}
