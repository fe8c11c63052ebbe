//! What a turn can guard.
ghost use Rattle.std.specs.Prelude.{List};

/// A value for a turn. Who gives it back shows that its world is the same and that its story has only grown.
pub trait Kept: Drop {
    /// What the value is about, as the problem that a store of answers belongs to.
    type World;

    /// One entry of the story.
    type Item;

    ghost world: { Self → Self.World };

    // All that happened to the value so far, the oldest entry first.
    ghost story: { Self → List Self.Item };
}
