//! Operands: constants, lists, pairs, arguments, calls and the built-in functions.
//!
//! A function of this module is passed `inner`, which reads an expression wherever fewer levels of openers are left than
//! where the function begins. What it promises is `Reads`: it answers as the parser of its rule does.
//! Operators, and what `inner` is, are left to what stands above.

mod bracketed;
mod built;
mod inside;
mod operand;

pub use built::two_args;
pub use inside::nested;
pub use operand::{app, arg, args};
