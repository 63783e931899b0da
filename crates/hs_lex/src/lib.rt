//! The lexer: the tokens of a script, or the first thing that is wrong with it.
//!
//! To a contract a token is plain data, and `Tokens` is the list of them, the bytes of the source and the position
//! behind the last byte. What it means that some bytes have these tokens stands in `rules_tokens`, over whole texts.
//!
//! The promise is that of `lex`: its answer is the one right outcome of the bytes. That two outcomes can't both be right
//! is the contract of `one_outcome`. Grammar, names and types are left to the crates above.
#![tactic(auto)]

mod characters;
mod fault;
mod front;
mod gaps;
mod lexer;
mod literal;
mod number;
mod place;
mod symbols;
mod words;

pub use fault::LexFault;
pub use lexer::{lex, one_outcome};
