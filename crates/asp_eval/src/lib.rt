//! The value of an outer move behind the last level, with the outer moves that share it.
//!
//! The constraint part has constraints alone, so the value is true where no constraint has a true body; atoms that the
//! constraint part alone has are false. What decides is told as a cube, and the fewer literals it has the more moves it
//! answers:
//!
//! - Where constraints are broken, the literals of one of them on outer atoms are enough. It is one with the fewest.
//! - Where none is, a literal of each constraint that is false is enough. They are chosen one constraint after another,
//!   where none chosen before serves, and those that are needless in the end go.
//!
//! In reading order:
//!
//! - `outer`: the places of outer atoms, and those of a rule
//! - `broken`: a broken constraint with the fewest literals
//! - `preferences`: which of a constraint's false literals is taken
//! - `covering`: atoms whose literals make each constraint's body false
//! - `thinning`: few of them
//! - `judged`: the call `evaluate`
#![tactic(auto)]

mod broken;
mod covering;
mod judged;
mod outer;
mod preferences;
mod thinning;

pub use judged::{Judged, evaluate};
