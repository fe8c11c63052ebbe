//! The constants of a program, gathered without taking memory: bases have no more than 4,096, so that they stand in an
//! array.
ghost use Rattle.std.specs.Prelude.{IsTrue, [], ◌∷◌, ◌+◌, ◌<◌, length, map};
ghost use Rattle.std.specs.List.{flat_map};
ghost use Rattle.asp_defs.specs.Constants.{const_cmp, term_constants, rule_constants};
ghost use Rattle.asp_atoms.specs.Ascending.{Ascends};
ghost use Rattle.asp_atoms.specs.ConstRefs.{const_of};
ghost use Rattle.asp_ground.specs.Gaps.{IsIntegerAt, HasAll, IsPlace};
ghost use Rattle.asp_ground.specs.Counts.{Gathers};

use arrayvec::ArrayVec;
use asp_atoms::{ConstRef, compare_const_refs, interval_length, stepped};
use asp_defs::{Rule, Term};
use asp_walk::Terms;

/// Room for one more constant than a program with bases has at most.
const CONSTANT_ROOM: usize = 4097;

/// Ascending constants.
pub type Constants<'a> = ArrayVec<ConstRef<'a>, CONSTANT_ROOM>;

/// Where a constant stands among ascending ones, or else where it belongs there.
fn place_for(found: &[ConstRef<'_>], constant: ConstRef<'_>) -> Result<usize, usize>
    requires { Ascends const_cmp (map const_of found.now) }
    ensures { IsPlace (map const_of found.now) (const_of constant.entry) result }
{
    found.binary_search_by(|other| compare_const_refs(*other, constant))
}

/// Whether an integer stands so many places behind a place.
fn is_behind(found: &[ConstRef<'_>], first: usize, steps: usize, value: i32) -> bool
    requires { first < length found.now }
    ensures { IsTrue result → IsIntegerAt (map const_of found.now) value (first + steps) }
{
    if steps >= found.len() - first {
        return false;
    }
    compare_const_refs(found[first + steps], ConstRef::Int(value)).is_eq()
}

/// Whether all integers of an interval stand among ascending constants: its first one does, and its last one stands as
/// far behind it as it has to.
fn has_interval(found: &[ConstRef<'_>], low: i32, high: i32) -> bool
    requires { Ascends const_cmp (map const_of found.now) }
    ensures { IsTrue result → HasAll (map const_of found.now) (term_constants (Term.Range low high)) }
{
    let length = interval_length(low, high) as usize;
    if length == 0 {
        return true;
    }
    match place_for(found, ConstRef::Int(low)) {
        Ok(first) => is_behind(found, first, length - 1, high),
        Err(_) => false,
    }
}

/// Adds a constant, unless it stands there already.
fn add_constant<'a>(found: &mut Constants<'a>, constant: ConstRef<'a>)
    requires { Ascends const_cmp (map const_of found.old.items) }
    ensures { Gathers (map const_of found.old.items) (map const_of found.new.items) (const_of constant.entry ∷ []) }
{
    match place_for(found.as_slice(), constant) {
        Ok(_) => {}
        Err(place) => {
            if !found.is_full() {
                found.insert(place, constant);
            }
        }
    }
}

/// Adds the integers of an interval, unless all of them stand there already.
fn add_interval(found: &mut Constants<'_>, low: i32, high: i32)
    requires { Ascends const_cmp (map const_of found.old.items) }
    ensures { Gathers (map const_of found.old.items) (map const_of found.new.items)
        (term_constants (Term.Range low high)) }
{
    if has_interval(found.as_slice(), low, high) {
        return;
    }
    for step in 0..interval_length(low, high) {
        let value = stepped(low, high, step);
        add_constant(found, ConstRef::Int(value));
    }
}

/// Adds the constants for which a term stands.
fn add_term<'a>(found: &mut Constants<'a>, term: &'a Term)
    requires { Ascends const_cmp (map const_of found.old.items) }
    ensures { Gathers (map const_of found.old.items) (map const_of found.new.items) (term_constants term.now) }
{
    match term {
        Term::Int(value) => add_constant(found, ConstRef::Int(*value)),
        Term::Sym(name) => add_constant(found, ConstRef::Sym(name.as_slice())),
        Term::Var(_) => {}
        Term::Anon(_) => {}
        Term::Range(low, high) => add_interval(found, *low, *high),
    }
}

/// Adds the constants of a rule.
fn add_rule<'a>(found: &mut Constants<'a>, rule: &'a Rule)
    requires { Ascends const_cmp (map const_of found.old.items) }
    ensures { Gathers (map const_of found.old.items) (map const_of found.new.items) (rule_constants rule.now) }
{
    for term in Terms::of_rule(rule) {
        add_term(found, term);
    }
}

/// Adds the constants of rules.
pub fn add_rules<'a>(found: &mut Constants<'a>, rules: &'a [Rule])
    requires { Ascends const_cmp (map const_of found.old.items) }
    ensures { Gathers (map const_of found.old.items) (map const_of found.new.items)
        (flat_map rule_constants rules.now) }
{
    for rule in rules {
        add_rule(found, rule);
    }
}
