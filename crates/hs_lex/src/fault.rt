ghost use Rattle.std.specs.Prelude.{◌≡◌};

use hs_base::{NoMemory, Pos};
use std::alloc::AllocError;
use thiserror::Error;

/// Why a script has no tokens. Of several faults it is the first one.
#[derive(Debug, Drop, Error)]
pub enum LexFault {
    /// The bytes aren't UTF-8, from this place on.
    #[error("no UTF-8 at {}:{}", .0.line, .0.col)]
    NotUtf8(Pos),
    /// A character that begins no token, or a backslash that begins no escape.
    #[error("a character that begins no token at {}:{}", .0.line, .0.col)]
    BadChar(Pos),
    /// A text literal that isn't closed on its line.
    #[error("a text that isn't closed on its line at {}:{}", .0.line, .0.col)]
    OpenText(Pos),
    /// A number above 9223372036854775807.
    #[error("a number that is too big at {}:{}", .0.line, .0.col)]
    BigNumber(Pos),
    /// Want of memory.
    #[error("out of memory")]
    NoMemory,
}

impl From<NoMemory> for LexFault {
    ghost use Rattle.hs_lex.specs.declared.fault.LexFault.{LexFault};

    ghost from_gives = { λ e fault. fault ≡ LexFault.NoMemory };

    fn from(_: NoMemory) -> LexFault {
        LexFault::NoMemory
    }
}

impl From<AllocError> for LexFault {
    ghost use Rattle.hs_lex.specs.declared.fault.LexFault.{LexFault};

    ghost from_gives = { λ e fault. fault ≡ LexFault.NoMemory };

    fn from(_: AllocError) -> LexFault {
        LexFault::NoMemory
    }
}
