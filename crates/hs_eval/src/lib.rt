//! What an expression of a code gives, in an environment of values.
//!
//! To a contract an answer stands for an outcome of the definition of meaning. The one promise: `eval` answers exactly what
//! an expression of a code means with names, where the values of the slots fit its scope: a value of its sort or an
//! exception. `eval_node` does the same for the tree of any node, and answers `Stuck` where the typing rules are broken;
//! `eval_at` takes the values of the slots in two lists, so that an environment may share most of them. It
//! ends on every input, since a node's parts have lower numbers; long chains and lists go by loops. That whole runs reach
//! only such expressions is left to the laws of states.
#![tactic(auto)]

mod binary;
mod compare;
mod evaluate;
mod forms;
mod found;
mod leaf;
mod lists;
mod meaning;
mod numbers;
mod outcome;
mod quick;
mod read;

pub use evaluate::eval_at;
pub use found::{Found, FoundAll};
pub use meaning::{eval, eval_node, slots_mean};
pub use outcome::Outcome;
pub use quick::test_at;
