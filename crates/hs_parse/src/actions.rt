//! The forms of an action that begin with a reserved word, but for `if` and `case`.
//!
//! A function of this module is passed `inner`, which reads a block wherever no more levels of openers are left than where
//! the function begins. What it promises is `Reads`: it answers as the parser of its rule does.
//! Statements, blocks and what `inner` is are left to what stands above.

mod forms;
mod parts;
mod plain;

pub use forms::word_action;
pub use parts::nested_block;
