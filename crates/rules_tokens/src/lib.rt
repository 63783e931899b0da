//! Tokens: what a script's bytes are read as, and the rules that say so (`specs/Tokens.antt`).
//!
//! To a contract a token is plain data: what it is, where its bytes begin and end, and its position. The one promise is
//! the relation between a text and its tokens, which names the first fault of a text without tokens. Reading bytes is
//! left to `hs_lex`, and which lists of tokens are scripts to `rules_grammar`.
#![tactic(auto)]

pub mod symbol;
mod token;
pub mod word;

pub use token::{Tok, Token, Tokens};
