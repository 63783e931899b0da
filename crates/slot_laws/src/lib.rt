//! Local rules on slots, and what they are of the rules on names. This crate has no code: each public function with an
//! empty body carries laws as its contract, so that a caller may use them and a reader find them.
//!
//! To a contract a thread's stack is a term with slots, a part and its frames, whose actions are the trees that a code's
//! numbers stand for (`specs/SlotRules.antt`). Its rules are deterministic and look at what stands below its frames only for
//! the masking state. Such a term stands for a named one in a scope that its values fit (`specs/Standing.antt`), and the
//! stacks of a state stand for the terms of its threads by one store (`specs/Stacks.antt`). `framing` says that a slice of a
//! thread is one over all frames, `moving` that a term moves as those that it stands for, `stacks` that stacks stand from the
//! first state of a run on, and `expressions` that what a thread evaluates next has a meaning.
//!
//! Its promise: where a stack stands for a thread of a run, so many of its local rules are as many of the thread's, it stands
//! again, an action never lacks a rule, and at each expression on the way `hs_eval::eval` may be called. Never stuck is left
//! to `hs_progress`, and that controls and frames in memory are such terms to the crate that runs them.
#![tactic(auto)]

pub mod expressions;
pub mod framing;
pub mod moving;
pub mod stacks;
