//! How a test names the row that fails.

use std::test::Fail;

/// Fails with the row's name where the row isn't as it should be.
pub fn expect(holds: bool, row: &str) -> Result<(), Fail> {
    if holds {
        return Ok(());
    }
    Err(Fail::new(row))
}
