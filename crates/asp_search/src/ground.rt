//! Whether a loose clause is the reason of a literal that is placed before the first decision. What is learned may rest on
//! it then, since such literals aren't resolved.

ghost use Rattle.std.specs.Prelude.{◌≡◌, ◌+◌, ◌*◌, ◌/◌, ◌<◌, ◌≤◌, ◌^◌, length, true, false};
ghost use Rattle.asp_clauses.specs.Trail.{level_at};
ghost use Rattle.asp_clauses.specs.Book.{Goes};
ghost use Rattle.asp_search.specs.Learned.{AreFirm, IsGround, IsGrounded, base_of};

use asp_clauses::{Book, Trail};

/// Looks at the literals before the first decision that weren't looked at yet: `looked` counts them, and `loose` becomes
/// true where the reason of one is loose.
pub fn look_at_ground(book: &Book, trail: &Trail, looked: &mut u32, loose: &mut bool)
    requires goes { Goes book.now trail.now }
    requires kinds { length book.now.kinds ≡ length book.now.clauses }
    requires ground { IsGround book.now.kinds trail.now.steps looked.old loose.old }
    ensures ground { IsGround book.now.kinds trail.now.steps looked.new loose.new }
    ensures grounded { IsGrounded (base_of book.now loose.new) book.now.clauses trail.now.steps }
{
    while is_ground(trail, *looked) {
        *loose = is_loosened(book, trail, *looked, *loose);
        *looked += 1;
    }
}

/// Whether there is a literal at the place, and it is placed before the first decision.
fn is_ground(trail: &Trail, place: u32) -> bool
    ensures within { result ≡ true → place < length trail.now.steps }
    ensures fits { result ≡ true → place + 1 < 2 ^ 32 }
    ensures low { result ≡ true → level_at trail.now.steps place ≡ 0 }
    ensures behind { result ≡ false → place < length trail.now.steps → 0 < level_at trail.now.steps place }
{
    if place >= trail.len() {
        return false;
    }
    trail.level(trail.at(place) / 2) == 0
}

/// Whether a loose clause was found before, or is the reason of the literal at the place.
fn is_loosened(book: &Book, trail: &Trail, place: u32, loose: bool) -> bool
    requires goes { Goes book.now trail.now }
    requires within { place < length trail.now.steps }
    ensures grows { loose ≡ true → result ≡ true }
    ensures firm { result ≡ false → AreFirm book.now.kinds trail.now.steps place }
{
    if loose {
        return true;
    }
    match trail.reason(trail.at(place) / 2) {
        Some(reason) => book.kind(reason).loose,
        None => false,
    }
}
