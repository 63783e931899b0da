ghost use Rattle.std.specs.Prelude.{◌≡◌, [], ◌∷◌};
ghost use Rattle.conc_turn.specs.Views.{view_in, IsAtRest};

use crate::view::View;
use atomic_table::Badge;

/// A right to ask for the turn. It has no bytes.
#[derive(Drop)]
pub struct Seat {
    pub(crate) badge: Badge<View>,
    ghost one_view: { badge.views ≡ view_in badge.views ∷ [] },
    ghost at_rest: { IsAtRest (view_in badge.views) },
}
