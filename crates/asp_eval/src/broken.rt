//! A broken constraint with the fewest literals on outer atoms.
ghost use Rattle.std.specs.Prelude.{◌≡◌, ◌<◌, ◌≤◌, ◌⊎◌, IsTrue, length, Some, MatchOption};
ghost use Rattle.std.specs.List.{list_all};
ghost use Rattle.asp_bits.specs.Places.{true_places};
ghost use Rattle.asp_reduct.specs.Bounds.{are_below, is_rule_below};
ghost use Rattle.asp_eval.specs.Broken.{IsBroken, AreUnbroken, Weighs};

use asp_bits::Bits;
use asp_defs::GroundRule;
use asp_reduct::body_true;

/// A constraint whose body is true, by its place, and how many literals it has on outer atoms.
#[derive(Clone, Copy)]
pub struct Broken {
    pub rule: usize,
    pub literals: usize,
}

/// How many of the atoms are outer ones.
fn outer_count(atoms: &[u32], outer: &Bits) -> usize
    requires { IsTrue (are_below (length outer.now) atoms.now) }
    ensures { result ≤ length atoms.now }
{
    let mut count = 0;
    for atom in atoms {
        if outer.get(*atom) {
            count += 1;
        }
    }
    count
}

/// The one of both that has fewer literals.
fn fewer(found: Option<Broken>, next: Broken) -> Broken
    ensures { (result ≡ next) ⊎ (found ≡ Some result) }
{
    match found {
        Some(found) if found.literals <= next.literals => found,
        _ => next,
    }
}

/// The one that has fewer literals, of a broken constraint and the one at a place where that is broken too.
fn fewer_at(
    found: Option<Broken>,
    rules: &[GroundRule],
    place: usize,
    set: &Bits,
    outer: &Bits,
) -> Option<Broken>
    requires place { place < length rules.now }
    requires below { IsTrue (list_all (is_rule_below (length set.now)) rules.now) }
    requires same_length { length outer.now ≡ length set.now }
    ensures { Weighs (true_places set.now) rules.now place found result }
{
    let rule = &rules[place];
    if !body_true(rule, set) {
        return found;
    }
    let literals = outer_count(rule.pos.as_slice(), outer).saturating_add(outer_count(
        rule.neg.as_slice(),
        outer,
    ));
    Some(fewer(
        found,
        Broken {
            rule: place,
            literals,
        },
    ))
}

/// A constraint with a true body that has the fewest literals on outer atoms, the first of these, or none where no body
/// is true.
pub fn fewest_broken(rules: &[GroundRule], set: &Bits, outer: &Bits) -> Option<Broken>
    requires below { IsTrue (list_all (is_rule_below (length set.now)) rules.now) }
    requires same_length { length outer.now ≡ length set.now }
    ensures { MatchOption result
        (AreUnbroken (true_places set.now) rules.now)
        (λ broken. IsBroken (true_places set.now) rules.now broken.rule) }
{
    let mut found = None;
    for place in 0..rules.len() {
        found = fewer_at(found, rules, place, set, outer);
    }
    found
}
