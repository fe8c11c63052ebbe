//! The universes of the levels.
ghost use Rattle.std.specs.Prelude.{◌≡◌, ◌≤◌, ◌+◌, ◌++◌, [], map, length, min, IfOk, OnOk};
ghost use Rattle.std.specs.List.{flat_map};
ghost use Rattle.std.specs.Ordering.{nat_cmp};
ghost use Rattle.std.specs.Cmp.Lexicographic.{slice_cmp};
ghost use Rattle.asp_defs.specs.declared.faults.Which.TheVariants as which;
ghost use Rattle.asp_defs.specs.Lists.{numbers_from};
ghost use Rattle.asp_defs.specs.Constants.{const_cmp, distinct, rule_constants};
ghost use Rattle.asp_defs.specs.Limits.{limit, most_shown};
ghost use Rattle.asp_atoms.specs.Ascending.{Ascends};
ghost use Rattle.asp_atoms.specs.Universes.{term_symbols, constants_of, universe_to};
ghost use Rattle.asp_atoms.specs.Vocabularies.{const_rank};

use crate::counts::sum;
use crate::intervals::{Interval, add_intervals, count_integers, intervals_with};
use crate::search::rank;
use crate::terms::terms;
use asp_defs::{Const, List, Name, NoMemory, Rule, Term};
use std::alloc::Global;

/// Constants: integers as intervals, and symbols. A symbol borrows its bytes.
#[derive(Drop)]
pub struct Constants<'a> {
    /// Ascending, and no integer in two of them.
    pub intervals: Vec<Interval>,
    /// Ascending, each once.
    pub symbols: Vec<&'a [u8]>,
}

/// Adds the symbol for which a term stands.
fn add_symbol<'a>(out: &mut Vec<&'a [u8]>, term: &'a Term) -> Result<(), NoMemory>
    ensures { OnOk result (map (λ s. s.now) out.new.items ≡ map (λ s. s.now) out.old.items ++ term_symbols term.now) }
{
    match term {
        Term::Sym(name) => {
            out.push(name.as_slice())?;
        }
        Term::Int(_) => {}
        Term::Var(_) => {}
        Term::Anon(_) => {}
        Term::Range(..) => {}
    }
    Ok(())
}

/// Symbols and those of further terms, ascending, each once.
fn symbols_with<'a>(
    alloc: Global,
    before: &[&'a [u8]],
    terms: &[&'a Term],
) -> Result<Vec<&'a [u8]>, NoMemory>
    ensures { IfOk result (λ out. map (λ s. s.now) out.items
        ≡ distinct (slice_cmp nat_cmp) (map (λ s. s.now) before.now ++ flat_map term_symbols (map (λ t. t.now) terms.now))) }
{
    let mut symbols = Vec::from_slice(alloc, before)?;
    for term in terms {
        add_symbol(&mut symbols, term)?;
    }
    symbols.sort_unstable();
    symbols.dedup();
    Ok(symbols)
}

/// Constants and those of further rules.
fn constants_with<'a>(
    alloc: Global,
    before: &Constants<'a>,
    rules: &'a [Rule],
) -> Result<Constants<'a>, NoMemory>
    ensures { IfOk result (λ out. constants_of out
        ≡ distinct const_cmp (constants_of before.now ++ flat_map rule_constants rules.now)) }
{
    let terms = terms(alloc, rules)?;
    let intervals = intervals_with(alloc, before.intervals.as_slice(), terms.as_slice())?;
    let symbols = symbols_with(alloc, before.symbols.as_slice(), terms.as_slice())?;
    Ok(Constants { intervals, symbols })
}

/// No constants.
fn no_constants<'a>(alloc: Global) -> Constants<'a>
    ensures intervals { result.intervals.items ≡ [] }
    ensures symbols { result.symbols.items ≡ [] }
{
    Constants {
        intervals: Vec::new(alloc),
        symbols: Vec::new(alloc),
    }
}

/// The universes of the levels: of none of them, of the first, and so on to that of all.
pub fn universes<'a>(alloc: Global, levels: &[&'a [Rule]]) -> Result<Vec<Constants<'a>>, NoMemory>
    ensures { IfOk result (λ out. map constants_of out.items
        ≡ map (universe_to (map (λ l. l.now) levels.now)) (numbers_from 0 (length levels.now + 1))) }
{
    let mut universes = Vec::new(alloc);
    universes.push(no_constants(alloc))?;
    for (at, rules) in levels.iter().enumerate() {
        let next = constants_with(alloc, &universes[at], rules)?;
        universes.push(next)?;
    }
    Ok(universes)
}

/// How many constants there are, at most 10^18.
pub fn count(constants: &Constants) -> u64
    ensures { result ≡ min (length (constants_of constants.now)) most_shown }
{
    let symbols = constants.symbols.len() as u64;
    sum(count_integers(constants.intervals.as_slice()), symbols)
}

/// Adds symbols as constants.
fn add_symbols(alloc: Global, out: &mut Vec<Const>, symbols: &[&[u8]]) -> Result<(), NoMemory>
    ensures { OnOk result (out.new.items ≡ out.old.items ++ map Const.Sym (map (λ s. s.now) symbols.now)) }
{
    for symbol in symbols {
        let name = Name::from_slice(alloc, symbol)?;
        out.push(Const::Sym(name))?;
    }
    Ok(())
}

/// The constants one by one.
pub fn listed(alloc: Global, constants: &Constants) -> Result<Vec<Const>, NoMemory>
    ensures { IfOk result (λ out. out.items ≡ constants_of constants.now) }
{
    let mut out = Vec::new(alloc);
    add_intervals(&mut out, constants.intervals.as_slice())?;
    add_symbols(alloc, &mut out, constants.symbols.as_slice())?;
    Ok(out)
}

/// The ranks of constants among others that ascend.
fn ranks(alloc: Global, all: &[Const], constants: &Constants) -> Result<List<u32>, NoMemory>
    requires ordered { Ascends const_cmp all.now }
    requires few { length all.now ≤ limit which.Constants }
    ensures { IfOk result (λ out. out ≡ map (const_rank all.now) (constants_of constants.now)) }
{
    let members = listed(alloc, constants)?;
    let mut ranks = Vec::new(alloc);
    for constant in &members {
        ranks.push(rank(all, constant))?;
    }
    Ok(List::from_vec(ranks))
}

/// The ranks of the members of universes among constants that ascend.
pub fn ranked(
    alloc: Global,
    all: &[Const],
    universes: &[Constants],
) -> Result<List<List<u32>>, NoMemory>
    requires ordered { Ascends const_cmp all.now }
    requires few { length all.now ≤ limit which.Constants }
    ensures { IfOk result (λ out. out ≡ map (map (const_rank all.now)) (map constants_of universes.now)) }
{
    let mut out = Vec::new(alloc);
    for constants in universes {
        let ranks = ranks(alloc, all, constants)?;
        out.push(ranks)?;
    }
    Ok(List::from_vec(out))
}
