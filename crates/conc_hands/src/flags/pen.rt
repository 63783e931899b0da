ghost use Rattle.std.specs.Prelude.{◌≡◌, []};

use crate::flags::view::PenView;
use atomic_table::Seat;

/// A right to raise and read the flags. It has no bytes.
#[derive(Drop)]
pub struct Pen {
    pub(crate) seat: Seat<(), PenView>,
    ghost empty_handed: { seat.me.1 ≡ [] },
}
