ghost use Rattle.std.specs.Prelude.{◌≡◌};

use crate::rule::TurnRule;
use crate::seat::Seat;
use crate::view::View;
use atomic_table::{Seat as TableSeat, Table};
use hs_rules::Kept;
use std::alloc::Global;
use std::snapshot::Snapshot;
use std::sync::atomic::AtomicU64;

/// Keeps one value. Threads share it, and one at a time has the value.
pub struct Turn<D: Kept> {
    pub(crate) table: Table<Option<D>, View, Snapshot<D>, TurnRule, Global>,
    /// How many wait for the turn, or are about to: a hint, of which no contract speaks. Each is counted before the try after which
    /// it sleeps.
    pub(crate) waiting: AtomicU64,
    ghost sized: { (table.shared.table_id.words ≡ 1) × (table.shared.table_id.slots ≡ 1) },
}

/// The turn, taken. It can't be let go, and ends by `give`.
pub struct Held<'a, D: Kept> {
    pub(crate) turn: &'a Turn<D>,
    pub(crate) seat: TableSeat<Option<D>, View>,
    pub(crate) kept: D,
}

/// What one try to take the turn came to.
pub enum Tried<'a, D: Kept> {
    Got(Held<'a, D>),
    /// Somebody else had it. `word` is what the try read.
    Busy { seat: Seat, word: u64 },
}
