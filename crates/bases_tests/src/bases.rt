//! The atoms of programs and their numbers.
ghost use Rattle.std.specs.Prelude.{IfSome};
ghost use Rattle.asp_atoms.specs.Answers.{IsSearchable};

use crate::rows::expect;
use crate::texts::{checked, put_atom, put_numbers};
use asp_atoms::{Vocabulary, atom_count, bases, number, vocabulary};
use asp_defs::{Bases, GroundAtom, List, Name, NoMemory, SizeFault, Which};
use std::alloc::Global;
use std::fmt::Write;
use std::test::Fail;

/// The atoms of a program in their order, and the numbers of each level's atoms.
const BASES: [(&str, &str); 9] = [
    // A later level brings a constant that the earlier base lacks.
    (
        "%@exists p(1). %@exists q(a).",
        "p(1) p(a) q(1) q(a) { }{ 0 }{ 0 1 2 3 }{ 0 1 2 3 }",
    ),
    // A name with two arities is two predicates.
    (
        "%@exists p(2,1). %@exists p.",
        "p p(1,1) p(1,2) p(2,1) p(2,2) { }{ 1 2 3 4 }{ 0 1 2 3 4 }{ 0 1 2 3 4 }",
    ),
    // Integers come first, and by value.
    (
        "%@exists s(b). s(10). s(-2). s(aa).",
        "s(-2) s(10) s(aa) s(b) { }{ 0 1 2 3 }{ 0 1 2 3 }",
    ),
    // A constant of the constraint part is in the last base alone.
    (
        "%@exists p(d). %@constraint :- p(c).",
        "p(c) p(d) { }{ 1 }{ 0 1 }",
    ),
    // Intervals overlap, and one with its ends swapped is empty.
    (
        "%@exists p(2..4). p(9..7). %@exists p(1..3).",
        "p(1) p(2) p(3) p(4) { }{ 1 2 3 }{ 0 1 2 3 }{ 0 1 2 3 }",
    ),
    // A minus belongs to the name, and comes before every letter.
    ("%@exists a. -b. b.", "-b a b { }{ 0 1 2 }{ 0 1 2 }"),
    (
        "%@exists p(1). %@exists -p(2).",
        "-p(1) -p(2) p(1) p(2) { }{ 2 }{ 0 1 2 3 }{ 0 1 2 3 }",
    ),
    // The numbers of bounds are no constants.
    ("%@exists 5 {p(1)} 7.", "p(1) { }{ 0 }{ 0 }"),
    // Over no constants there are atoms without arguments alone.
    ("%@exists q(1..0). a.", "a { }{ 0 }{ 0 }"),
];

/// The atoms, and the numbers of each level's atoms.
fn written_bases(alloc: Global, bases: &Bases) -> Result<String, NoMemory> {
    let mut written = String::new(alloc);
    let atoms = bases.atoms.as_slice();
    for atom in atoms {
        put_atom(&mut written, atom)?;
        written.push(' ')?;
    }
    let members = bases.members.as_slice();
    for numbers in members {
        put_numbers(&mut written, numbers.as_slice())?;
    }
    Ok(written)
}

fn bases_of(alloc: Global, text: &str) -> Option<String> {
    let checked = checked(alloc, text)?;
    let bases = bases(alloc, &checked).ok()?;
    written_bases(alloc, &bases).ok()
}

/// Whether something was written, and this.
fn is_written(written: Option<String>, expected: &str) -> bool {
    match written {
        Some(text) => text.as_str() == expected,
        None => false,
    }
}

fn bases_rows(alloc: Global, rows: &[(&str, &str)]) -> Result<(), Fail> {
    for (text, expected) in rows {
        expect(is_written(bases_of(alloc, text), expected), text)?;
    }
    Ok(())
}

#[test]
fn gives_the_bases_of_each_level(rt: HostRuntime) -> Result<(), Fail> {
    bases_rows(rt.alloc(), &BASES)
}

/// Whether a number of atoms is this one, of bytes, or the limit is passed with this count.
fn is_told(answer: Result<u32, SizeFault>, which: Which, count: u64) -> bool {
    match answer {
        Ok(atoms) => which == Which::Bytes && u64::from(atoms) == count,
        Err(SizeFault::TooLarge(past, most)) => which == past && most == count,
        Err(SizeFault::NoMemory) => false,
    }
}

/// A text, and its number of atoms or the limit that it passes.
type Counted = (&'static str, Which, u64);

const COUNTED: [Counted; 10] = [
    ("%@exists p.", Which::Bytes, 1),
    ("%@exists p(1..0).", Which::Bytes, 0),
    ("%@exists p(0..4095).", Which::Bytes, 4096),
    ("%@exists p(0..4096).", Which::Constants, 4097),
    (
        "%@exists p(-2147483648..2147483647,-2147483648..2147483647).",
        Which::Constants,
        4_294_967_296,
    ),
    ("%@exists p(1..512,1..512).", Which::Bytes, 262_144),
    ("%@exists p(0..512,0..512).", Which::Atoms, 263_169),
    (
        "%@exists p(1..512,1..512,1..512).",
        Which::Atoms,
        134_217_728,
    ),
    (
        "%@exists p(1..512,1..512,1..512,1..512,1..512,1..512,1..512).",
        Which::Atoms,
        1_000_000_000_000_000_000,
    ),
    // Over 1, 2 and c: one of p, nine of p with two arguments, three of q.
    (
        "%@exists p(2,1). %@exists p. %@constraint :- q(c).",
        Which::Bytes,
        13,
    ),
];

/// Whether that is said of the number of atoms alone, and with the vocabulary.
fn is_counted(alloc: Global, text: &str, which: Which, count: u64) -> bool {
    let Some(checked) = checked(alloc, text) else {
        return false;
    };
    let beside = vocabulary(alloc, &checked).map(|vocabulary| vocabulary.atoms);
    is_told(atom_count(alloc, &checked), which, count) && is_told(beside, which, count)
}

fn count_rows(alloc: Global, rows: &[Counted]) -> Result<(), Fail> {
    for (text, which, count) in rows {
        expect(is_counted(alloc, text, *which, *count), text)?;
    }
    Ok(())
}

#[test]
fn counts_atoms_up_to_the_limits(rt: HostRuntime) -> Result<(), Fail> {
    count_rows(rt.alloc(), &COUNTED)
}

/// Places of atoms in the bases of the program below; the last one is that of none.
const PLACES: [(&str, usize, Option<u32>); 4] = [
    ("the first atom", 0, Some(0)),
    ("an atom between", 1000, Some(1000)),
    ("the last atom", 262_143, Some(262_143)),
    ("an atom too many", 262_144, None),
];

/// The number of the atom at a place.
fn number_at(bases: &Bases, place: usize) -> Option<u32>
    requires { IsSearchable bases.now }
{
    number(bases, bases.atoms.as_slice().get(place)?)
}

/// The number of an atom that stands in none of the bases.
fn number_of_other(alloc: Global, bases: &Bases) -> Result<Option<u32>, NoMemory>
    requires { IsSearchable bases.now }
{
    let other = GroundAtom {
        name: Name::from_slice(alloc, b"q")?,
        args: List::new(alloc),
    };
    Ok(number(bases, &other))
}

fn place_rows(bases: &Bases, rows: &[(&str, usize, Option<u32>)]) -> Result<(), Fail>
    requires { IsSearchable bases.now }
{
    for (row, place, expected) in rows {
        expect(number_at(bases, *place) == *expected, row)?;
    }
    Ok(())
}

/// The bases of a text, in which atoms can be looked up.
fn based(alloc: Global, text: &str) -> Option<Bases>
    ensures { IfSome result IsSearchable }
{
    let checked = checked(alloc, text)?;
    match bases(alloc, &checked) {
        Ok(bases) => Some(bases),
        Err(_) => None,
    }
}

/// Whether there are so many atoms, and the atom of none is told.
fn has_atoms(alloc: Global, bases: &Bases, count: usize) -> bool
    requires { IsSearchable bases.now }
{
    bases.atoms.len() == count && number_of_other(alloc, bases) == Ok(None)
}

/// Over a base as large as it can be.
const LARGEST: &str = "%@exists p(1..512,1..512).";

#[test]
fn an_atom_is_found_where_it_stands(rt: HostRuntime) -> Result<(), Fail> {
    let Some(bases) = based(rt.alloc(), LARGEST) else {
        return Err(Fail::new(LARGEST));
    };
    if !has_atoms(rt.alloc(), &bases, 262_144) {
        return Err(Fail::new(LARGEST));
    }
    place_rows(&bases, &PLACES)
}

/// The ranks of each level's constants, and each predicate with its number of arguments and its first atom's number.
fn written(alloc: Global, vocabulary: &Vocabulary) -> Result<String, NoMemory> {
    let mut text = String::new(alloc);
    let universes = vocabulary.universes.as_slice();
    for ranks in universes {
        put_numbers(&mut text, ranks.as_slice())?;
    }
    let predicates = vocabulary.predicates.as_slice();
    for predicate in predicates {
        let name = predicate.name.as_slice();
        for byte in name {
            text.push(char::from(*byte))?;
        }
        let arity = predicate.arity;
        let first = predicate.first;
        write!(text, "/{arity} {first};")?;
    }
    Ok(text)
}

fn vocabulary_of(alloc: Global, text: &str) -> Option<String> {
    let checked = checked(alloc, text)?;
    let vocabulary = vocabulary(alloc, &checked).ok()?;
    written(alloc, &vocabulary).ok()
}

#[test]
fn a_vocabulary_has_first_numbers_and_ranks(rt: HostRuntime) -> Result<(), Fail> {
    let text = "%@exists q(b,7). %@exists a(a). z.";
    let expected = "{ }{ 0 2 }{ 0 1 2 }{ 0 1 2 }a/1 0;q/2 3;z/0 12;";
    expect(is_written(vocabulary_of(rt.alloc(), text), expected), text)
}
