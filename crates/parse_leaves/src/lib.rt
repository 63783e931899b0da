//! What the parser reads that is no expression and no action: tokens, names, types, parameters, operators and patterns.
//!
//! To a contract a `Cursor` is the list of the tokens that are left. What a call promises is `Reads`: it answers as the
//! parser of its rule does, and leaves what that leaves. `specs/Readers.antt` says the same of a closure that reads
//! whatever stands in one opener more.
//! Which tokens a text has is left to the lexer, and expressions, actions and scripts to the crates above.
//!
//! A part with a head of its own: `case_arms`, the arms of a `case`, whose branches are expressions or blocks.
#![tactic(auto)]

pub mod case_arms;
mod cursor;
mod halt;
mod leaf;
mod params;
pub mod trees;
mod types;
mod words;

pub use cursor::Cursor;
pub use halt::Halt;
