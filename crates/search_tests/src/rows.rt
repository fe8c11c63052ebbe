//! How a test says which of its rows fails.

use std::test::Fail;

/// Fails with the row's name where the row isn't as it should be.
pub fn expect(holds: bool, row: &str) -> Result<(), Fail> {
    if holds {
        return Ok(());
    }
    Err(Fail::new(row))
}

/// Fails with the row's number where the row isn't as it should be.
pub fn expect_number(holds: bool, row: u32) -> Result<(), Fail> {
    if holds {
        return Ok(());
    }
    Err(Fail::new(row))
}
