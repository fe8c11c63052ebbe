//! Where the value stands while no seat holds it.
ghost use Rattle.std.specs.Prelude.{◌≡◌};

use crate::kept::Kept;
use crate::rule::OneTurn;
use crate::view::View;
use atomic_table::Table;
use std::alloc::Global;
use std::snapshot::Snapshot;

pub(crate) type Board<V> = Table<
    Option<V>,
    View<<V as Kept>::World, <V as Kept>::Item>,
    Snapshot<V>,
    OneTurn,
    Global,
>;

/// A turn over one value, shared by reference. Its word is 1 while a seat holds the value, which is then out of its slot.
#[derive(Drop)]
pub struct Turn<V: Kept> {
    pub(crate) table: Board<V>,
    ghost one_word: { table.shared.table_id.words ≡ 1 },
    ghost one_slot: { table.shared.table_id.slots ≡ 1 },
}
