//! Texts of random levels over the atoms a to f, of which the level before has the first two.

use std::alloc::AllocError;

/// Where a fixed series of numbers stands.
#[derive(Drop)]
pub struct Series {
    pub state: u32,
}

impl Series {
    /// The next number, below 65536.
    fn next(&mut self) -> u32 {
        self.state = self
            .state
            .wrapping_mul(1_664_525)
            .wrapping_add(1_013_904_223);
        self.state >> 16
    }
}

fn letter(number: u32) -> &'static str {
    match number % 6 {
        0 => "a",
        1 => "b",
        2 => "c",
        3 => "d",
        4 => "e",
        _ => "f",
    }
}

/// Adds at most so many literals, the first one behind `before`.
fn put_literals(
    text: &mut String,
    series: &mut Series,
    most: u32,
    before: &'static str,
) -> Result<(), AllocError> {
    let mut is_first = true;
    for _ in 0..most {
        if series.next() % 2 == 0 {
            text.push_str(if is_first { before } else { ", " })?;
            text.push_str(if series.next() % 3 == 0 { "not " } else { "" })?;
            text.push_str(letter(series.next()))?;
            is_first = false;
        }
    }
    Ok(())
}

/// Adds an end of a bound, or none.
fn put_end(text: &mut String, number: u32) -> Result<(), AllocError> {
    text.push_str(match number % 8 {
        0 => " 0 ",
        1 => " 1 ",
        2 => " 2 ",
        3 => " 3 ",
        _ => "",
    })
}

fn put_element(text: &mut String, series: &mut Series) -> Result<(), AllocError> {
    text.push_str(letter(series.next()))?;
    put_literals(text, series, 2, " : ")
}

fn put_choice(text: &mut String, series: &mut Series) -> Result<(), AllocError> {
    put_end(text, series.next())?;
    text.push_str("{")?;
    put_element(text, series)?;
    for _ in 0..series.next() % 4 {
        text.push_str("; ")?;
        put_element(text, series)?;
    }
    text.push_str("}")?;
    put_end(text, series.next())
}

/// A choice in most rules, else one atom, two or none.
fn put_head(text: &mut String, series: &mut Series) -> Result<(), AllocError> {
    let form = series.next() % 8;
    if form < 3 {
        return put_choice(text, series);
    }
    if form < 7 {
        text.push_str(letter(series.next()))?;
    }
    if form == 6 {
        text.push_str(" | ")?;
        text.push_str(letter(series.next()))?;
    }
    Ok(())
}

/// Adds two levels, of which the first chooses two atoms and the second has two to eight random rules.
pub fn put_levels(text: &mut String, series: &mut Series) -> Result<(), AllocError> {
    text.push_str("%@exists {a}. {b}. %@exists\n")?;
    for _ in 0..2 + series.next() % 7 {
        put_head(text, series)?;
        text.push_str(" :- ")?;
        put_literals(text, series, 3, "")?;
        text.push_str(".\n")?;
    }
    Ok(())
}
