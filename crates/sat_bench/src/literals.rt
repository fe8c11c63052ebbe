//! Literals as a search has them.

ghost use Rattle.std.specs.Prelude.{◌*◌, ◌<◌, ◌≤◌, IfSome, IsTrue};
ghost use Rattle.asp_clauses.specs.Literal.{most_atoms};
ghost use Rattle.asp_search.specs.State.{AreDifferent};

/// The code of a literal: twice the atom, counted from 0, and one more where it is positive.
pub fn code(number: i32, atoms: u32) -> Option<u32>
    requires { atoms ≤ most_atoms }
    ensures { IfSome result (λ code. code < 2 * atoms) }
{
    let atom = number.unsigned_abs();
    if atom == 0 || atom > atoms {
        return None;
    }
    Some(2 * (atom - 1) + u32::from(number > 0))
}

/// Whether the literals' atoms ascend.
pub fn are_ascending(literals: &[u32]) -> bool
    ensures { IsTrue result → AreDifferent literals.now }
{
    let mut next = 0;
    for literal in literals {
        if *literal / 2 < next {
            return false;
        }
        next = *literal / 2 + 1;
    }
    true
}
