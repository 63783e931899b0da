ghost use Rattle.std.specs.Prelude.{◌≡◌};

use hs_base::NoMemory;
use std::alloc::AllocError;

/// Why reading stops, with the number of the tokens left, the one that it stops at among them.
#[derive(Debug, Drop)]
pub enum Halt {
    /// At a token with which no script goes on, or at the end.
    Unexpected(usize),
    /// At an opener that stands in too many.
    TooDeep(usize),
    NoMemory,
}

impl From<AllocError> for Halt {
    ghost use Rattle.parse_leaves.specs.declared.halt.Halt.{Halt};

    ghost from_gives = { λ e f. f ≡ Halt.NoMemory };

    fn from(_: AllocError) -> Halt {
        Halt::NoMemory
    }
}

impl From<NoMemory> for Halt {
    ghost use Rattle.parse_leaves.specs.declared.halt.Halt.{Halt};

    ghost from_gives = { λ e f. f ≡ Halt.NoMemory };

    fn from(_: NoMemory) -> Halt {
        Halt::NoMemory
    }
}
