//! The syntax tree of a script: one variant for each shape of the productions of the grammar, with the word that tells
//! them apart (`forms`), the position of the node, and the parts in the order in which they are written.
//!
//! A chain of operators is one node with a flat list of links, so that a long chain is not a deep tree. Parentheses
//! round one expression are no node.

mod action;
mod expr;
pub mod forms;
mod script;
mod ty;

pub use action::{Action, Block, BlockArms, Stmt};
pub use expr::{CompareOp, ConsOp, Constant, Expr, ExprArms, Link, ListLink, Name, SumLink, SumOp};
pub use script::{Body, Def, Param, Script};
pub use ty::{Ty, Written};
