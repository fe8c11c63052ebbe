//! A place at which members of a team can be held.

/// A member of a team, by its level and its number in the level's team.
#[derive(Debug, Clone, Copy, PartialEq, Eq)]
pub struct Point {
    /// The level, from 1.
    pub level: u32,
    /// The number in the team, from 0.
    pub member: u32,
}

/// What a member passes, holding no turn, before each question that it puts to the next level. It changes nothing that
/// a contract speaks of; one that waits holds up its member alone.
pub trait Gate {
    /// Lets the member pass.
    fn pass(&self, point: &Point);
}

/// A gate that does nothing.
#[derive(Debug, Clone, Copy)]
pub struct NoGate;

impl Gate for NoGate {
    fn pass(&self, _point: &Point) {}
}
