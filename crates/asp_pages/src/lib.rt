//! Pages of the list of quantified answer sets: the regions whose sets are looked for one after another, and the page that
//! their lists make.
//!
//! In reading order:
//!
//! - `parting`: the regions of all sets, or of the sets after one
//! - `page`: the first of the sets that were found
//! - `laws`: that the regions part the sets, in order
#![tactic(auto)]

mod laws;
mod page;
mod parting;

pub use page::{Page, PartPage, collect};
pub use parting::{region_list, regions};
