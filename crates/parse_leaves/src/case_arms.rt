//! The arms of a `case`, whose branches are expressions or blocks.
//!
//! A function of this module is passed `inner`, which reads a branch wherever no more levels of openers are left than where
//! the function begins. What it promises is `Reads`: it answers as the parser of its rule does. The braces around arms are
//! left to what stands above, since each of the two has a part of the grammar of its own.

mod arm;
mod branch;
mod kinds;

pub use branch::Branch;
pub use kinds::arms;
