//! Interpretations with places on both sides of a word's border.
use crate::rows::expect;
use asp_bits::Bits;
use asp_defs::NoMemory;
use std::alloc::Global;
use std::cmp::Ordering;
use std::test::Fail;

/// A list of truth values with those at the given places true.
fn with_true(alloc: Global, len: u32, places: &[u32]) -> Result<Bits, NoMemory> {
    let mut bits = Bits::new(alloc, len)?;
    for place in places {
        if *place < bits.len() {
            bits.set(*place, true);
        }
    }
    Ok(bits)
}

/// A name, the true places of two interpretations, and the order that falsity first gives.
type Row = (&'static str, &'static [u32], &'static [u32], Ordering);

const ORDERED: [Row; 8] = [
    ("none and none", &[], &[], Ordering::Equal),
    ("none and 0", &[], &[0], Ordering::Less),
    ("0 and 1, 2, 129", &[0], &[1, 2, 129], Ordering::Greater),
    ("63 and 64", &[63], &[64], Ordering::Greater),
    ("5, 64 and 5, 63", &[5, 64], &[5, 63], Ordering::Less),
    ("5, 128 and the same", &[5, 128], &[5, 128], Ordering::Equal),
    ("129 and 128", &[129], &[128], Ordering::Less),
    (
        "1, 63, 64 and 1, 63, 64, 129",
        &[1, 63, 64],
        &[1, 63, 64, 129],
        Ordering::Less,
    ),
];

/// Whether an interpretation and a copy of another are ordered so.
fn is_ordered(alloc: Global, first: &Bits, second: &Bits, order: Ordering) -> bool {
    match second.copy(alloc) {
        Ok(copied) if first.len() == 130 && copied.len() == 130 => first.compare(&copied) == order,
        _ => false,
    }
}

fn compared(alloc: Global, row: &Row) -> Result<bool, NoMemory> {
    let first = with_true(alloc, 130, row.1)?;
    let second = with_true(alloc, 130, row.2)?;
    Ok(is_ordered(alloc, &first, &second, row.3))
}

fn compare_rows(alloc: Global, rows: &[Row]) -> Result<(), Fail> {
    for row in rows {
        expect(compared(alloc, row)?, row.0)?;
    }
    Ok(())
}

#[test]
fn orders_by_the_first_difference(rt: HostRuntime) -> Result<(), Fail> {
    compare_rows(rt.alloc(), &ORDERED)
}

/// Sets two places and clears one of them, and whether just the other is true then.
fn sets_and_clears(bits: &mut Bits) -> bool {
    if bits.len() != 70 {
        return false;
    }
    bits.set(64, true);
    bits.set(69, true);
    bits.set(64, false);
    bits.get(69) && !bits.get(64) && !bits.get(0)
}

#[test]
fn sets_and_clears_one_place(rt: HostRuntime) -> Result<(), Fail> {
    let mut bits = Bits::new(rt.alloc(), 70)?;
    expect(sets_and_clears(&mut bits), "places 64 and 69 of 70")
}
