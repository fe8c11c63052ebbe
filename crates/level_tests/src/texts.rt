//! The rules of a text, and how a test says which of its rows fails.

use asp_defs::{Game, GroundRule};
use std::test::Fail;

/// The rules of the first level.
pub fn first_rules(game: &Game) -> &[GroundRule] {
    match game.rules.as_slice().first() {
        Some(rules) => rules.as_slice(),
        None => &[],
    }
}

/// Fails with the row's text and number where the row isn't as it should be.
pub fn expect_number(holds: bool, text: &str, number: u32) -> Result<(), Fail> {
    if holds {
        return Ok(());
    }
    Err(Fail::new(format_args!("{text}: number {number}")))
}
