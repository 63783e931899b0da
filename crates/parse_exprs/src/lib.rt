//! Expressions: operators, `if`, `case` and `let`, and what stands in their openers.
//!
//! What a call promises is `Reads`: it answers as the parser of its rule does. Each form is a function that is passed
//! `inner`, which reads what stands in an opener, and `expr` alone calls itself, through the closure that it passes.
//! Actions are left to the crate above.
//!
//! A part with a head of its own: `operands`, constants, lists, pairs, arguments, calls and the built-in functions.
#![tactic(auto)]

mod arms;
mod chains;
mod exprs;
mod forms;
mod links;
pub mod operands;

pub use exprs::{arg, args, expr, two_args};
