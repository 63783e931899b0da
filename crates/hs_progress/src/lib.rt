//! An accepted script is never stuck in a run. This crate has no code: each public function with an empty body carries laws
//! as its contract, so that a caller may use them and a reader find them.
//!
//! To a contract a core action, a part, frames and a term have sorts (`specs/CoreTyping.antt`, `specs/TypedStates.antt`), and
//! a state is typed by a store: what each cell is for, the number of threads, and the sort that each thread's part gives to
//! its frames. `expansion` says that what a script's actions expand to has their types, `local_rules` and `growth` that
//! terms stay typed by every store and by each later one, `going` what every state of a run is and where its threads go on,
//! `expressions` that all that a run evaluates has a value, and `waiting` when nothing can go on but time.
//!
//! Its promise: in every state of a run of an accepted script in which main hasn't finished, each thread that is neither
//! blocked nor finished has a legal entry of its own; and nothing but a Tick is legal exactly where all wait. Pure meaning
//! is left to `hs_soundness`, what holds of scripts that weren't checked to `hs_laws`, and that code and stacks at run time
//! stand for such terms to the crates that run them.
#![tactic(auto)]

pub mod expansion;
pub mod expressions;
pub mod going;
pub mod growth;
pub mod local_rules;
pub mod waiting;
