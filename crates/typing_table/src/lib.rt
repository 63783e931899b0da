//! The types that the checker works with: those that a form makes, and those of a table.
//!
//! The table has each type that a definition's head writes, and each part of one, by its form and its parts' places. So
//! such a type is a number to the checker, which copies it and compares it in a step, however many nodes it has, and what
//! a form makes has 64 nodes at most. To a contract a type stands for the tree that `type_in` says (`specs/Meaning`). The one
//! promise: each call does to that tree what its name says. That equal types have one place (`Interner`) no clause says, for
//! time alone depends on it.
#![tactic(auto)]

pub mod base;
pub mod interner;
pub mod kind;
pub mod parts;
pub mod sameness;
pub mod table;
pub mod ty;
pub mod widths;
pub mod written;
