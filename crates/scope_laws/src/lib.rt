//! The law of async scopes. This crate has no code: its public function with an empty body carries the law as its contract, so
//! that a caller may use it and a reader find it.
//!
//! To a contract a scope is known by its cell. Which cells a thread is acting on, as the child of a scope, and which it guards, as
//! the thread that runs the scope, can be read off its term (`specs/ScopeLaw.antt`).
//!
//! Its promise: in every run of an accepted script, whichever cell a child is still acting on is guarded by exactly one thread, so
//! no scope is left before its child has ended its action; and no child has gone without leaving its end. Typing is left to
//! `hs_progress`, and brackets, cells and masks to `hs_laws`.
#![tactic(auto)]

pub mod scopes;
