use hs_lex::LexFault;
use hs_parse::ParseFault;
use hs_types::TypeFault;

/// Why a script is refused.
#[derive(Debug, Drop)]
pub enum Refusal {
    /// More than 1,048,576 bytes.
    TooLong,
    /// The bytes have no tokens.
    Lex(LexFault),
    /// The tokens are no script.
    Parse(ParseFault),
    /// The script breaks a typing rule.
    Types(TypeFault),
}

/// Why there is no code.
#[derive(Debug, Drop)]
pub enum CompileFault {
    /// The script is refused. A refusal never holds the `NoMemory` of its stage.
    Refused(Refusal),
    /// Want of memory.
    NoMemory,
}
