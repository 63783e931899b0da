//! Tests of what the front answers and the top call does not tell: the exact tokens of a text, where the parts of a tree
//! stand, what a refusal carries, and which actions are forms of async scopes. What the top call tells is shown by the rows
//! (`docs/ROWS.md`).
//!
//! A part with a head of its own: `codes`, what scripts expand to.
#![tactic(auto)]

mod carried;
#[cfg(test)]
pub mod codes;
#[cfg(test)]
mod scoped;
#[cfg(test)]
mod spelled;
#[cfg(test)]
mod trees;
