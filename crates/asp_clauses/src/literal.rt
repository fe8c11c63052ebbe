//! Literal codes.

ghost use Rattle.std.specs.Prelude.{◌≡◌, ◌<◌, ◌^◌};
ghost use Rattle.asp_clauses.specs.Literal.{negated};

/// The other literal of the same atom.
pub fn negation(literal: u32) -> u32
    ensures { result ≡ negated literal }
{
    if literal % 2 == 0 {
        literal + 1
    } else {
        literal - 1
    }
}
