//! How a test says which of its rows fails.
use std::test::Fail;

/// Fails with the row's name where the row isn't as it should be.
pub fn expect(holds: bool, row: &str) -> Result<(), Fail> {
    if holds {
        return Ok(());
    }
    Err(Fail::new(row))
}

/// Fails with the words and the row's name where a run isn't as it should be.
pub fn expect_run(holds: bool, words: &str, row: &str) -> Result<(), Fail> {
    if holds {
        return Ok(());
    }
    Err(Fail::new(format_args!("{words}: {row}")))
}

/// Fails with the words and the number where a row or a call isn't as it should be.
pub fn expect_number(holds: bool, words: &str, number: u32) -> Result<(), Fail> {
    if holds {
        return Ok(());
    }
    Err(Fail::new(format_args!("{words}: number {number}")))
}
