//! The page that the lists of the regions make.
ghost use Rattle.std.specs.Prelude.{◌≡◌, [], ◌∷◌, ◌++◌, List, Bool, length, take, nat_lt, IfOk, OnOk};
ghost use Rattle.asp_pages.specs.Collected.{in_a_row, IsPageOf};

use asp_bits::Bits;
use asp_defs::{Give, List, NoMemory};
use std::alloc::Global;

/// Sets, and whether further ones follow.
#[derive(Debug, Drop)]
pub struct Page {
    pub sets: List<Bits>,
    pub more: bool,
}

/// The sets that were found of a page, and why it ends there.
#[derive(Debug, Drop)]
pub struct PartPage {
    pub sets: List<Bits>,
    pub give: Give,
}

/// The first `count` sets of lists in a row, and whether there are more. `NoMemory`: memory was refused.
pub fn collect(alloc: Global, parts: List<List<Bits>>, count: u32) -> Result<Page, NoMemory>
    ensures sets { IfOk result (λ page. page.sets ≡ take count (in_a_row parts)) }
    ensures more { IfOk result (λ page. page.more ≡ nat_lt count (length (in_a_row parts))) }
{
    let mut page = Page {
        sets: List::new(alloc),
        more: false,
    };
    for part in parts.into_vec() {
        add_part(&mut page, part, count)?;
    }
    Ok(page)
}

/// Adds the sets of one more list. `NoMemory`: memory was refused.
fn add_part(page: &mut Page, part: List<Bits>, count: u32) -> Result<(), NoMemory>
    ensures { OnOk result ((sets : List (List Bool)) → IsPageOf sets count page.old → IsPageOf (sets ++ part) count page.new) }
{
    for set in part.into_vec() {
        add_set(page, set, count)?;
    }
    Ok(())
}

/// Adds one more set. `NoMemory`: memory was refused.
fn add_set(page: &mut Page, set: Bits, count: u32) -> Result<(), NoMemory>
    ensures { OnOk result ((sets : List (List Bool)) → IsPageOf sets count page.old → IsPageOf (sets ++ set ∷ []) count page.new) }
{
    if page.sets.len() < count as usize {
        page.sets.push(set)?;
    } else {
        page.more = true;
    }
    Ok(())
}
