//! One value that several threads take in turn, and what each of them knows of its story.
//!
//! Idea:
//! - A value has a world, which never changes, and a story, a list that only grows.
//! - The turn is one word and one slot. The word is 1 while a seat holds the value, and then the slot is out.
//! - A seat is a token without bytes. It knows the one world, and a beginning of the story: what it has seen.
//! - Whoever takes the value finds a story that begins with what its seat has seen, and gives back one that begins with
//!   what it found. So all that any seat has seen stays in the story for ever.
//! - What one seat has seen another can learn, without the value.
//!
//! | call | the seat before | the seat after | waits |
//! |---|---|---|---|
//! | `new` | | has seen the value's story | no |
//! | `take` | holds nothing | holds | until the word was 0 |
//! | `try_take` | holds nothing | holds, or was refused once more | no |
//! | `give` | holds | holds nothing, has seen the story that it gave | no |
//! | `split` | holds nothing | as before, beside a new seat that has seen as much | no |
//! | `join` | two, which hold nothing | one that has seen the longer list | no |
//! | `learn` | two, which hold nothing | the first has seen the longer list, the second as before | no |
//! | `close` | holds nothing | gone, with the turn | until the word was 0 |
//!
//! The steps on the table: an attempt to take (0 to 1, or a refusal at 1), the slot out, the slot in, give (1 to 0), and
//! three reads of the word, at which a seat is split, joined or settled.
//!
//! To read in this order: `kept`, `turn`, `seat`, `takes`, `shares`; then `view`, `rule`, `law` and `plays`, which stand in
//! proofs alone.
#![tactic(auto)]

mod kept;
mod law;
mod plays;
mod rule;
mod seat;
mod shares;
mod takes;
mod turn;
mod view;

pub use kept::Kept;
pub use law::running_turn;
pub use seat::Seat;
pub use turn::Turn;
