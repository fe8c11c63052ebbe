//! Reads a formula in DIMACS form from standard input, searches for an assignment that satisfies it, and prints what
//! was found and what it took. Lines of the text may ask for several searches over its clauses: then it prints the last answer,
//! what all of them took, and how many found an assignment.
#![tactic(auto)]

mod dimacs;
mod literals;
mod runs;

use anyhow::Result;
use dimacs::search_all;
use std::io;

fn main(rt: HostRuntime) -> Result<()> {
    let text = io::read_to_string(rt.alloc(), rt.stdin())?;
    let runs = search_all(rt.alloc(), text.as_str())?;
    let answer = if runs.last_found {
        "SATISFIABLE"
    } else {
        "UNSATISFIABLE"
    };
    println!(rt; "{answer}")?;
    let conflicts = runs.conflicts;
    let decisions = runs.decisions;
    let placements = runs.placements;
    println!(rt; "decisions {decisions} conflicts {conflicts} placements {placements}")?;
    if runs.searches > 1 {
        let searches = runs.searches;
        let found = runs.found;
        println!(rt; "searches {searches} found {found}")?;
    }
    Ok(())
}
