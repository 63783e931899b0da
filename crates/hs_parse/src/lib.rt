//! The parser: the script that a list of tokens spells, or the exact token at which no script goes on.
//!
//! To a contract the tokens are their list and the position of their end, and the script is its tree. The one promise is
//! that of `parse`: it answers the script that spells the tokens within 200 nested openers; `Unexpected` at the first
//! token with which no script goes on, or at the end; or `Deep` at the first opener that stands in 200.
//! What the tokens of a text are is left to the lexer, and what a script means to the typing.
//!
//! Parts with a head of their own: `actions`, the forms of an action that begin with a reserved word; `blocks`,
//! blocks, their statements, and the actions `if` and `case`.
#![tactic(auto)]

pub mod actions;
pub mod blocks;
mod fault;
mod parsing;
mod script;

pub use fault::ParseFault;
pub use parsing::parse;
