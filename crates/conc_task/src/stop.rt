use hs_compile::Refusal;

/// Why there is nothing to run, and nothing is accepted.
#[derive(Debug, Drop)]
pub enum Stop {
    /// The words are no command.
    Words,
    /// The script is refused.
    Refused(Refusal),
    /// A read of the source failed.
    Read,
    /// No line of the document is `script`.
    NoScript,
    /// Want of memory.
    Memory,
}
