//! The literals of a clause of a bound that isn't met.
ghost use Rattle.std.specs.Prelude.{ℕ, ◌≡◌, ◌<◌, ◌&&◌, ◌++◌, true, length, map, IsTrue, IfOk, OnOk};
ghost use Rattle.asp_bits.specs.Places.{true_places};
ghost use Rattle.asp_defs.specs.Bounds.{counted_atoms};
ghost use Rattle.asp_defs.specs.Interpretations.{holds};
ghost use Rattle.asp_defs.specs.Lists.{IsIn};
ghost use Rattle.asp_defs.specs.Truth.{literals_true};
ghost use Rattle.asp_reduct.specs.Bounds.{is_term_below, is_bound_below};
ghost use Rattle.asp_bounds.specs.Terms.{literal, is_counted};
ghost use Rattle.asp_bounds.specs.Denials.{IsDenial, ArePlaces, Settles, Reasoned, Denied, IsLowDenial, IsHighDenial, denial_of};

use crate::terms::{counts, reason};
use asp_bits::Bits;
use asp_defs::{Bound, Counted, Lit, NoMemory};
use std::alloc::Global;

/// Appends one literal of each atom.
fn push_literals(clause: &mut Vec<Lit>, atoms: &[u32], positive: bool) -> Result<(), NoMemory>
    ensures { OnOk result (clause.new.items ≡ clause.old.items ++ map (literal positive) atoms.now) }
{
    for atom in atoms {
        clause.push(Lit {
            atom: *atom,
            positive,
        })?;
    }
    Ok(())
}

/// The literals that the body is false, of a body that is true.
pub fn body_denial(alloc: Global, bound: &Bound, set: &Bits) -> Result<Vec<Lit>, NoMemory>
    requires { literals_true (true_places set.now) bound.now.pos bound.now.neg ≡ true }
    ensures { IfOk result (λ clause. IsDenial bound.now (true_places set.now) clause.items) }
{
    let mut clause = Vec::new(alloc);
    push_literals(&mut clause, bound.pos.as_slice(), false)?;
    push_literals(&mut clause, bound.neg.as_slice(), true)?;
    Ok(clause)
}

/// The places of these atoms, of so many.
pub fn places(alloc: Global, atoms: &[u32], count: u32) -> Result<Bits, NoMemory>
    requires { (a : ℕ) → IsIn a atoms.now → a < count }
    ensures { IfOk result (λ marks. ArePlaces count atoms.now marks) }
{
    let mut marks = Bits::new(alloc, count)?;
    for atom in atoms {
        marks.set(*atom, true);
    }
    Ok(marks)
}

/// Settles the term's atom where the literal says that this atom is false.
fn settle(settled: &mut Bits, term: &Counted, lit: Lit)
    requires { term.now.atom < length settled.old }
    ensures { Settles term.now lit settled.old settled.new }
{
    if lit.positive {
        if lit.atom == term.atom {
            settled.set(term.atom, true);
        }
    }
}

/// Appends why the term doesn't count, where it doesn't and its atom isn't settled; where that is that its atom is false,
/// the atom is settled.
fn add_reason(
    clause: &mut Vec<Lit>,
    term: &Counted,
    set: &Bits,
    settled: &mut Bits,
) -> Result<(), NoMemory>
    requires below { IsTrue (is_term_below (length set.now) term.now) }
    requires places { length settled.old ≡ length set.now }
    ensures { OnOk result
        (Reasoned (true_places set.now) term.now clause.old.items clause.new.items settled.old settled.new) }
{
    if settled.get(term.atom) {
        return Ok(());
    }
    let Some(lit) = reason(term, set) else {
        return Ok(());
    };
    clause.push(lit)?;
    settle(settled, term, lit);
    Ok(())
}

/// Appends why the terms don't count whose atoms aren't counted, one literal for each false atom; at first the atoms are
/// settled that are counted.
pub fn add_reasons(
    clause: &mut Vec<Lit>,
    bound: &Bound,
    set: &Bits,
    settled: &mut Bits,
) -> Result<(), NoMemory>
    requires below { IsTrue (is_bound_below (length set.now) bound.now) }
    requires denial { IsDenial bound.now (true_places set.now) clause.old.items }
    requires settled { ArePlaces (length set.now) (counted_atoms (true_places set.now) bound.now) settled.old }
    ensures { OnOk result (IsLowDenial bound.now (true_places set.now) bound.now.counted clause.new.items) }
{
    let terms = bound.counted.as_slice();
    for term in terms {
        add_reason(clause, term, set, settled)?;
    }
    Ok(())
}

/// Whether the term counts a wanted atom.
fn is_wanted(term: &Counted, set: &Bits, wanted: &Bits) -> bool
    requires below { IsTrue (is_term_below (length set.now) term.now) }
    requires places { length wanted.now ≡ length set.now }
    ensures { result ≡ (holds (true_places wanted.now) term.now.atom && is_counted (true_places set.now) term.now) }
{
    if wanted.get(term.atom) {
        counts(term, set)
    } else {
        false
    }
}

/// Appends that the term's atom is false, or that its condition is.
fn deny(clause: &mut Vec<Lit>, term: &Counted) -> Result<(), NoMemory>
    ensures { OnOk result (clause.new.items ≡ denial_of clause.old.items term.now) }
{
    clause.push(Lit {
        atom: term.atom,
        positive: false,
    })?;
    push_literals(clause, term.pos.as_slice(), false)?;
    push_literals(clause, term.neg.as_slice(), true)
}

/// Appends that the term's atom or its condition is false, where the term counts a wanted atom, which isn't wanted any more.
fn add_term(
    clause: &mut Vec<Lit>,
    term: &Counted,
    set: &Bits,
    wanted: &mut Bits,
) -> Result<(), NoMemory>
    requires below { IsTrue (is_term_below (length set.now) term.now) }
    requires places { length wanted.old ≡ length set.now }
    ensures { OnOk result
        (Denied (true_places set.now) term.now clause.old.items clause.new.items wanted.old wanted.new) }
{
    if !is_wanted(term, set, wanted) {
        return Ok(());
    }
    wanted.set(term.atom, false);
    deny(clause, term)
}

/// Appends for each wanted atom that it is false, or the condition is of the first term that counts it. These atoms are
/// wanted, and they are counted.
pub fn add_atoms(
    clause: &mut Vec<Lit>,
    bound: &Bound,
    set: &Bits,
    atoms: &[u32],
    wanted: &mut Bits,
) -> Result<(), NoMemory>
    requires below { IsTrue (is_bound_below (length set.now) bound.now) }
    requires denial { IsDenial bound.now (true_places set.now) clause.old.items }
    requires counted { (a : ℕ) → IsIn a atoms.now → IsIn a (counted_atoms (true_places set.now) bound.now) }
    requires wanted { ArePlaces (length set.now) atoms.now wanted.old }
    ensures { OnOk result (IsHighDenial bound.now (true_places set.now) atoms.now clause.new.items) }
{
    let terms = bound.counted.as_slice();
    for term in terms {
        add_term(clause, term, set, wanted)?;
    }
    Ok(())
}
