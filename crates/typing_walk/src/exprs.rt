//! The types of expressions: the walk down an expression.
//!
//! To a contract the walk is a step of the checker (`typing_parts/specs/JudgedAs`). The one promise: it leaves the scope as
//! it was, the type that it gives is the one that `typing_judge` gives to the expression in that scope, and the kept fault is
//! the least of the one that was kept and of those that `typing_judge` lists.

mod forms;
mod leaves;
mod walk;

pub use walk::{type_of, types_of};
