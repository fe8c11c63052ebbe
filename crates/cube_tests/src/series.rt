//! A fixed series of numbers.

/// Where a series stands.
#[derive(Drop)]
pub struct Series {
    pub state: u32,
}

impl Series {
    /// The next number, below 65536.
    pub fn next(&mut self) -> u32 {
        self.state = self
            .state
            .wrapping_mul(1_664_525)
            .wrapping_add(1_013_904_223);
        self.state >> 16
    }
}
