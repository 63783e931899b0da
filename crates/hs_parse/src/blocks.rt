//! Blocks: their statements, and the actions `if` and `case` whose arms are blocks.
//!
//! What a call promises is `Reads`: it answers as the parser of its rule does. Each form is a function that is passed
//! `inner`, which reads a block that stands in an opener, and `block` alone calls itself, through the closure that it
//! passes. Definitions and scripts are left to what stands above.

mod arms;
mod blocks;
mod conditions;
mod step;
mod stmts;

pub use blocks::block;
