//! Printing sets, against texts that were written by hand.
ghost use Rattle.std.specs.Prelude.{◌<◌};

use crate::texts::front_of;
use asp_bits::Bits;
use asp_defs::{Bases, Const, GroundAtom, List, Name, NoMemory};
use asp_io::MemSink;
use asp_print::{print_set, print_sets};
use std::alloc::Global;
use std::process::Abort;

/// Atoms of each form, ascending: the name, the integers among the arguments, and the symbols behind these.
const ATOMS: [(&str, &[i32], &[&str]); 10] = [
    ("-a", &[], &[]),
    ("-p", &[-3], &["b"]),
    ("a", &[], &[]),
    ("aB_9", &[], &[]),
    ("edge", &[-2_147_483_648, 2_147_483_647], &[]),
    ("nota", &[], &["not1"]),
    ("p", &[0], &[]),
    ("p", &[12], &[]),
    ("p", &[], &["b"]),
    ("p", &[1, 2, 3, 4, 5, 6], &["x", "yZ_0"]),
];

/// How many places a set has: two more than there are atoms.
const PLACES: u32 = 12;

/// Places, and the set of the atoms there.
const SETS: [(&[u32], &str); 9] = [
    (&[], "{}"),
    (&[0], "{-a}"),
    (&[2], "{a}"),
    (&[9], "{p(1,2,3,4,5,6,x,yZ_0)}"),
    (&[0, 2], "{-a, a}"),
    (&[1, 4], "{-p(-3,b), edge(-2147483648,2147483647)}"),
    (&[3, 5, 6, 7, 8], "{aB_9, nota(not1), p(0), p(12), p(b)}"),
    (
        &[0, 1, 2, 3, 4, 5, 6, 7, 8, 9],
        "{-a, -p(-3,b), a, aB_9, edge(-2147483648,2147483647), nota(not1), p(0), p(12), p(b), p(1,2,3,4,5,6,x,yZ_0)}",
    ),
    (&[8, 10, 11], "{p(b)}"),
];

/// Symbols, as constants behind those of a list.
fn add_symbols(alloc: Global, args: &mut List<Const>, symbols: &[&str]) -> Result<(), NoMemory> {
    for symbol in symbols {
        args.push(Const::Sym(Name::from_slice(alloc, symbol.as_bytes())?))?;
    }
    Ok(())
}

/// The atom of a name, integers and symbols.
fn atom(
    alloc: Global,
    name: &str,
    integers: &[i32],
    symbols: &[&str],
) -> Result<GroundAtom, NoMemory> {
    let mut args = List::new(alloc);
    for integer in integers {
        args.push(Const::Int(*integer))?;
    }
    add_symbols(alloc, &mut args, symbols)?;
    let name = Name::from_slice(alloc, name.as_bytes())?;
    Ok(GroundAtom { name, args })
}

/// Bases with the atoms of the rows.
fn bases_of(alloc: Global, rows: &[(&str, &[i32], &[&str])]) -> Result<Bases, NoMemory> {
    let mut atoms = List::new(alloc);
    for (name, integers, symbols) in rows {
        atoms.push(atom(alloc, name, integers, symbols)?)?;
    }
    Ok(Bases {
        atoms,
        members: List::new(alloc),
    })
}

/// The set of these places, of so many.
fn set_of(alloc: Global, len: u32, places: &[u32]) -> Result<Bits, NoMemory> {
    let mut set = Bits::new(alloc, len)?;
    for place in places {
        if *place < set.len() {
            set.set(*place, true);
        }
    }
    Ok(set)
}

/// How many bytes a sink has of a set that was printed into it, if they are a front of the expected ones. A call takes at
/// most `most` bytes, and the calls of a list fail.
fn front_len(
    alloc: Global,
    bases: &Bases,
    set: &Bits,
    most: u32,
    failing: &[u32],
    expected: &[u8],
) -> Result<Option<usize>, NoMemory>
    requires { 0 < most }
{
    let mut sink = MemSink::new(alloc, 10_000, most, Vec::from_slice(alloc, failing)?)?;
    let is_whole = print_set(&mut sink, bases, set).is_ok();
    Ok(front_of(expected, sink.taken(), is_whole))
}

/// Prints the set of each row into a sink of which a call takes at most so many bytes.
fn print_rows(
    rt: &impl Abort,
    alloc: Global,
    bases: &Bases,
    rows: &[(&[u32], &str)],
    most: u32,
) -> Result<(), NoMemory>
    requires { 0 < most }
{
    for (places, expected) in rows {
        let set = set_of(alloc, PLACES, places)?;
        let front = front_len(alloc, bases, &set, most, &[], expected.as_bytes())?;
        assert!(rt;
            front == Some(expected.len()),
            "{expected}, {most} bytes a call"
        );
    }
    Ok(())
}

#[test]
fn prints_sets(rt: HostRuntime) -> Result<(), NoMemory> {
    let bases = bases_of(rt.alloc(), &ATOMS)?;
    for most in [1, 2, 7, 1000] {
        print_rows(&rt, rt.alloc(), &bases, &SETS, most)?;
    }
    Ok(())
}

#[test]
fn prints_a_set_of_few_places(rt: HostRuntime) -> Result<(), NoMemory> {
    let alloc = rt.alloc();
    let bases = bases_of(alloc, &ATOMS)?;
    let set = set_of(alloc, 3, &[1, 2])?;
    let expected = b"{-p(-3,b), a}";
    assert!(rt; front_len(alloc, &bases, &set, 100, &[], expected)? == Some(expected.len()));
    Ok(())
}

/// Prints a set into sinks of which one call fails, each of the first ones in turn.
fn fail_each(
    rt: &impl Abort,
    alloc: Global,
    bases: &Bases,
    set: &Bits,
    calls: u32,
    expected: &str,
) -> Result<(), NoMemory> {
    for failing in 1..calls {
        let front = front_len(alloc, bases, set, 1, &[failing], expected.as_bytes())?;
        assert!(rt; front.is_some(), "call {failing} fails");
    }
    Ok(())
}

#[test]
fn leaves_a_front_of_a_set_at_a_fault(rt: HostRuntime) -> Result<(), NoMemory> {
    let alloc = rt.alloc();
    let bases = bases_of(alloc, &ATOMS)?;
    let set = set_of(alloc, PLACES, &[1, 4])?;
    let expected = "{-p(-3,b), edge(-2147483648,2147483647)}";
    fail_each(&rt, alloc, &bases, &set, 50, expected)
}

/// The sets of rows.
fn sets_of(alloc: Global, rows: &[&[u32]]) -> Result<Vec<Bits>, NoMemory> {
    let mut sets = Vec::new(alloc);
    for places in rows {
        sets.push(set_of(alloc, PLACES, places)?)?;
    }
    Ok(sets)
}

/// Whether what is printed of the sets is this text.
fn prints(alloc: Global, bases: &Bases, rows: &[&[u32]], expected: &str) -> Result<bool, NoMemory> {
    let sets = sets_of(alloc, rows)?;
    let mut sink = MemSink::new(alloc, 10_000, 10_000, Vec::new(alloc))?;
    let is_whole = print_sets(&mut sink, bases, sets.as_slice()).is_ok();
    Ok(front_of(expected.as_bytes(), sink.taken(), is_whole) == Some(expected.len()))
}

#[test]
fn prints_a_line_for_each_set(rt: HostRuntime) -> Result<(), NoMemory> {
    let alloc = rt.alloc();
    let bases = bases_of(alloc, &ATOMS)?;
    assert!(rt; prints(alloc, &bases, &[], "")?);
    assert!(rt; prints(alloc, &bases, &[&[]], "{}\n")?);
    assert!(rt;
        prints(
            alloc,
            &bases,
            &[&[], &[2], &[0, 6]],
            "{}\n{a}\n{-a, p(0)}\n"
        )?
    );
    Ok(())
}

/// Bases with so many atoms of one name.
fn many(alloc: Global, count: i32) -> Result<Bases, NoMemory> {
    let mut atoms = List::new(alloc);
    for integer in 0..count {
        atoms.push(atom(alloc, "n", &[integer], &[])?)?;
    }
    Ok(Bases {
        atoms,
        members: List::new(alloc),
    })
}

/// The set of all places, of so many.
fn full(alloc: Global, len: u32) -> Result<Bits, NoMemory> {
    let mut set = Bits::new(alloc, len)?;
    for place in 0..len {
        if place < set.len() {
            set.set(place, true);
        }
    }
    Ok(set)
}

/// The text of so many atoms behind a first one.
fn many_text(alloc: Global, count: i32) -> Result<String, NoMemory> {
    let mut text = String::from_str(alloc, "{n(0)")?;
    for integer in 1..count {
        write!(text, ", n({integer})")?;
    }
    write!(text, "}}")?;
    Ok(text)
}

#[test]
fn prints_a_set_that_is_longer_than_what_is_gathered(rt: HostRuntime) -> Result<(), NoMemory> {
    let alloc = rt.alloc();
    let (bases, set) = (many(alloc, 1000)?, full(alloc, 1000)?);
    let text = many_text(alloc, 1000)?;
    // 10, 90 and 900 numbers of 1, 2 and 3 digits, each with 3 other bytes and, but for the first, 2 before these
    let len = 2 + 10 * 4 + 90 * 5 + 900 * 6 + 2 * 999;
    let front = front_len(alloc, &bases, &set, 3000, &[], text.as_bytes())?;
    assert!(rt; front == Some(len));
    Ok(())
}
