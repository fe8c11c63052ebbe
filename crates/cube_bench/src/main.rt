//! Reads a program from standard input and prints how many literals cubes of drawn moves have.
//!
//! The first word says how many moves are drawn, and the second says that one of so many atoms is true. With no third word the
//! moves are outer moves behind the last level; for each is printed whether it breaks no constraint, and how many literals its
//! cube has. With a third word they are moves of the last level: for each is printed the same, and behind it how many literals
//! the cube has of outer moves after which the level has a move in that cube. The third word says how often this second cube
//! is made. A drawn set that is no move is printed as `no move`.
//!
//! In reading order: `drawn` (moves that are drawn), `explained` (the cubes of a move of the last level).
#![tactic(auto)]

mod drawn;
mod explained;

ghost use Rattle.asp_defs.specs.Games.{IsValid};

use anyhow::Result;
use asp_defs::Game;
use asp_eval::evaluate;
use bases_tests::texts::game;
use cube_tests::series::Series;
use drawn::outer_move;
use explained::{Lengths, explain};
use std::alloc::Global;
use std::{env, io};

fn main(rt: HostRuntime) -> Result<()> {
    let words: Vec<String> = env::args(&rt)?.collect(rt.alloc())?;
    let moves = number(words.as_slice(), 1, 2);
    let one_in = number(words.as_slice(), 2, 2);
    let repeats = number(words.as_slice(), 3, 0);
    let text = io::read_to_string(rt.alloc(), rt.stdin())?;
    let Some(game) = game(rt.alloc(), text.as_str()) else {
        println!(rt; "no game")?;
        return Ok(());
    };
    let mut series = Series { state: 1 };
    for _ in 0..moves {
        if repeats == 0 {
            match judge(rt.alloc(), &game, &mut series, one_in) {
                Some((verdict, literals)) => println!(rt; "{verdict} {literals}")?,
                None => println!(rt; "out of memory")?,
            }
        } else {
            match explain(rt.alloc(), &game, &mut series, one_in, repeats) {
                Some(lengths) => {
                    let Lengths {
                        verdict,
                        judged,
                        explained,
                    } = lengths;
                    println!(rt; "{verdict} {judged} {explained}")?;
                }
                None => println!(rt; "no move")?,
            }
        }
    }
    Ok(())
}

/// The number at a place of the words, and a given one where there is none.
fn number(words: &[String], place: usize, or_else: u32) -> u32 {
    match words.get(place) {
        Some(word) => word.as_str().parse::<u32>().unwrap_or(or_else),
        None => or_else,
    }
}

/// The verdict on the next outer move, and how many literals its cube has; none where memory is refused.
fn judge(alloc: Global, game: &Game, series: &mut Series, one_in: u32) -> Option<(bool, usize)>
    requires { IsValid game.now }
{
    let set = outer_move(alloc, game, series, one_in)?;
    match evaluate(alloc, game, &set) {
        Ok(judged) => Some((judged.verdict, judged.cube.lits().len())),
        Err(_) => None,
    }
}
