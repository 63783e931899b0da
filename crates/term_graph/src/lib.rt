//! What terms by number do next.
//!
//! To a contract a step of a term is the local rule of the term with slots that its number stands for (`slot_laws`), in every
//! stack, though only its innermost frame is looked at. Whether a rule is eager is said by `specs/Eager`.
//!
//! Its promise: a step answers the number of exactly the term that the rule leaves, with whether the rule was eager; and the
//! terms that an answer, an exception and a fork make are those of the state with slots. What other threads may do meanwhile is
//! left to the laws of eager rules, and what an operation does to the crate above.
//!
//! A part with a head of its own: `tables`, terms of threads by number, frames in stacks and active parts in
//! stacks.
#![tactic(auto)]

mod begun;
mod eager;
mod made;
mod stepping;
pub mod tables;

pub use made::{first, forked, resumed};
pub use stepping::{LocalStep, step};
