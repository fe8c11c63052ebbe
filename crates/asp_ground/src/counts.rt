//! How many instances a program has.
ghost use Rattle.std.specs.Prelude.{◌≡◌, ◌^◌, None, [], min, length};
ghost use Rattle.std.specs.List.{sum_by};
ghost use Rattle.asp_defs.specs.Bases.{bases_of};
ghost use Rattle.asp_defs.specs.Limits.{most_shown};
ghost use Rattle.asp_defs.specs.Sizes.{instance_total};
ghost use Rattle.asp_atoms.specs.Answers.{base_too_large};
ghost use Rattle.asp_atoms.specs.Counts.{shown};
ghost use Rattle.asp_atoms.specs.Vocabularies.{vocabulary_of};
ghost use Rattle.asp_template.specs.Variables.{disjunctive_variables as disjunctive_variables_of, element_variables};
ghost use Rattle.asp_ground.specs.Counts.{choice_count, fact_count, head_count, rule_count, level_count};

use crate::bounds::has_bound;
use crate::constants::{Constants, add_rules};
use crate::level::universe_of;
use asp_atoms::counts::{power, product, sum};
use asp_atoms::{Vocabulary, interval_length};
use asp_checked::Checked;
use asp_defs::{Atom, Bases, Element, Head, List, Literal, Rule, Term};
use asp_template::{disjunctive_variables, element_variables};

/// For how many terms an argument stands.
fn choice_count(term: &Term) -> u64
    ensures { result ≡ choice_count term.now }
{
    match term {
        Term::Int(_) => 1,
        Term::Sym(_) => 1,
        Term::Var(_) => 1,
        Term::Anon(_) => 1,
        Term::Range(low, high) => interval_length(*low, *high),
    }
}

/// For how many facts a fact stands.
fn fact_count(atom: &Atom) -> u64
    ensures { result ≡ shown (fact_count atom.now) }
{
    let args = atom.args.as_slice();
    let mut count = 1_u64;
    for term in args {
        count = product(count, choice_count(term));
    }
    count
}

/// How many instances the elements of a choice have over so many constants.
fn elements_count(size: u64, elements: &[Element], body: &[Literal]) -> u64
    ensures { result ≡ shown (sum_by (λ e. size ^ length (element_variables body.now e)) elements.now) }
{
    let mut count = 0_u64;
    for element in elements {
        count = sum(count, power(size, element_variables(body, element).len()));
    }
    count
}

/// How many ground bounds a choice with a bound has over so many constants: as many as a constraint with its body has
/// instances.
fn bound_count(size: u64, body: &[Literal]) -> u64
    ensures { result ≡ shown (size ^ length (disjunctive_variables_of [] body.now)) }
{
    power(size, disjunctive_variables(&[], body).len())
}

/// How many instances a choice has over so many constants, its ground bounds among them.
fn choice_rule_count(
    size: u64,
    low: Option<i32>,
    elements: &[Element],
    high: Option<i32>,
    body: &[Literal],
) -> u64
    ensures { result ≡ shown (head_count size (Head.Choice low elements.now high) body.now) }
{
    let instances = elements_count(size, elements, body);
    if !has_bound(low, high) {
        return instances;
    }
    sum(instances, bound_count(size, body))
}

/// How many instances a disjunctive rule has over so many constants.
fn disjunction_count(size: u64, atoms: &[Atom], body: &[Literal]) -> u64
    ensures { result ≡ shown (head_count size (Head.Disj atoms.now) body.now) }
{
    if atoms.len() == 1 && body.len() == 0 {
        fact_count(&atoms[0])
    } else {
        power(size, disjunctive_variables(atoms, body).len())
    }
}

/// How many instances a rule has over so many constants.
fn rule_count(size: u64, rule: &Rule) -> u64
    ensures { result ≡ shown (rule_count size rule.now) }
{
    let body = rule.body.as_slice();
    match &rule.head {
        Head::Disj(atoms) => disjunction_count(size, atoms.as_slice(), body),
        Head::Choice(low, elements, high) => {
            choice_rule_count(size, *low, elements.as_slice(), *high, body)
        }
    }
}

/// How many instances rules have over so many constants.
fn rules_count(size: u64, rules: &[Rule]) -> u64
    ensures { result ≡ shown (sum_by (rule_count size) rules.now) }
{
    let mut count = 0_u64;
    for rule in rules {
        count = sum(count, rule_count(size, rule));
    }
    count
}

/// How many instances the rules of a level have.
fn level_count(universes: &[List<u32>], level: usize, rules: &[Rule]) -> u64
    ensures { result ≡ shown (level_count universes.now (level, rules.now)) }
{
    rules_count(universe_of(universes, level).len() as u64, rules)
}

/// How many instances a program has whose vocabulary is known, before comparisons are looked at: at most 10^18 is
/// answered. Takes no memory, and time that is linear in the program.
pub fn instance_count(checked: &Checked, vocabulary: &Vocabulary) -> u64
    requires known { vocabulary.now ≡ vocabulary_of checked.now }
    requires small { base_too_large checked.now ≡ None }
    ensures { result ≡ min (instance_total checked.now) most_shown }
{
    let program = checked.program();
    let levels = program.levels.as_slice();
    let universes = vocabulary.universes.as_slice();
    let mut count = 0_u64;
    for (place, level) in levels.iter().enumerate() {
        count = sum(
            count,
            level_count(universes, place + 1, level.rules.as_slice()),
        );
    }
    sum(
        count,
        level_count(universes, levels.len() + 1, program.cons.as_slice()),
    )
}

/// How many instances a program has, as `instance_count` says. The bases are those that `bases` answered of the program;
/// nothing in them is looked at. Takes no memory.
///
/// The constants are gathered from the program, each by a search among those that are there, of which a program with bases
/// has at most 4,096. An interval all of whose integers are there costs one search. Each other one is walked and adds a
/// constant, so that all walks together have less than 2^24 steps, and the rest of the time is linear in the program but
/// for these searches.
pub fn count(checked: &Checked, bases: &Bases) -> u64
    requires bases { bases.now ≡ bases_of checked.now }
    requires small { base_too_large checked.now ≡ None }
    ensures { result ≡ min (instance_total checked.now) most_shown }
{
    let _ = bases;
    let program = checked.program();
    let levels = program.levels.as_slice();
    let mut found = Constants::new();
    let mut count = 0_u64;
    for level in levels {
        let rules = level.rules.as_slice();
        add_rules(&mut found, rules);
        count = sum(count, rules_count(found.len() as u64, rules));
    }
    let cons = program.cons.as_slice();
    add_rules(&mut found, cons);
    sum(count, rules_count(found.len() as u64, cons))
}
