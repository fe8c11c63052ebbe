//! Reads a program from standard input and finds moves of its first level.
//!
//! The first word says how many moves are wanted, and 1 where there is no word. Each move is blocked with all its literals before the
//! next one is asked for. Printed is how many moves were found and whether there are no more, and how many nogoods ruled out what is
//! no move. Where none is wanted, the game is made alone.
//!
//! In reading order: `found` (the moves of a level that are found).
#![tactic(auto)]

mod found;

use anyhow::Result;
use asked_moves::trials::{has_game, try_text};
use found::Finding;
use std::{env, io};

fn main(rt: HostRuntime) -> Result<()> {
    let words: Vec<String> = env::args(&rt)?.collect(rt.alloc())?;
    let wanted = number(words.as_slice(), 1, 1);
    let text = io::read_to_string(rt.alloc(), rt.stdin())?;
    if wanted == 0 {
        let has_game = has_game(rt.alloc(), text.as_str());
        println!(rt; "game {has_game}")?;
        return Ok(());
    }
    let mut finding = Finding {
        wanted,
        moves: 0,
        are_all: false,
        nogoods: 0,
    };
    if try_text(rt.alloc(), text.as_str(), 1, u64::MAX, &mut finding).is_none() {
        println!(rt; "no answer")?;
        return Ok(());
    }
    let Finding {
        moves,
        are_all,
        nogoods,
        ..
    } = finding;
    println!(rt; "moves {moves} all {are_all} nogoods {nogoods}")?;
    Ok(())
}

/// The number at a place of the words, and a given one where there is none.
fn number(words: &[String], place: usize, or_else: u32) -> u32 {
    match words.get(place) {
        Some(word) => word.as_str().parse::<u32>().unwrap_or(or_else),
        None => or_else,
    }
}
