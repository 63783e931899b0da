ghost use Rattle.std.specs.Prelude.{◌≡◌, ◌<◌};

use crate::flags::rule::FlagsRule;
use crate::flags::view::{FlagsKey, PenView};
use atomic_table::Table;
use std::alloc::Global;

/// The words. Threads share them.
#[derive(Drop)]
pub struct Flags {
    pub(crate) table: Table<(), PenView, FlagsKey, FlagsRule, Global>,
    ghost some_hand: { 0 < table.shared.key.hands },
    ghost words_only: { (table.shared.table_id.words ≡ 64) × (table.shared.table_id.slots ≡ 0) },
}
