//! The types of expressions and actions: the walk down the body of a definition.
//!
//! `exprs` walks down an expression, `actions` down a block. What each promises stands at the head of its module.
#![tactic(auto)]

pub mod actions;
pub mod exprs;
