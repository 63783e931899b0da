use hs_base::Pos;
use thiserror::Error;

/// Why a list of tokens is no script.
#[derive(Debug, Drop, Error)]
pub enum ParseFault {
    /// No script is spelled by the tokens; at the first token after which no script goes on, or at the end.
    #[error("unexpected token")]
    Unexpected(Pos),
    /// At the first opener that stands in 200 openers.
    #[error("nested too deep")]
    Deep(Pos),
    #[error("out of memory")]
    NoMemory,
}
