//! Stacks of threads, and slices: some local rules of a thread at once, outside of any lock.
//!
//! To a contract a `Stack` is its control and its frames, the innermost first, which stand for a term with slots of
//! `slot_laws` (`specs/Parts`). A `Job` keeps that its thread is to do an action of its code with values that fit; a `Slice`
//! keeps that so many local rules of its code lead from its start to its end (`specs/Slicing`).
//!
//! The one promise: a slice stops exactly at its budget, at an operation, or at a value or an exception with no frame of its
//! own; and a stack that accepts it moves by just those rules, whatever frames lie below. What an operation does, and which
//! thread goes on, is left to the desk.
#![tactic(auto)]

mod advancing;
mod asking;
mod control;
mod fault;
mod job;
pub mod laws;
mod running;
mod sent;
mod sliced;
mod slicing;
mod stack;
mod ticketed;

pub use asking::asked;
pub use control::{Control, Operation as Prim};
pub use fault::SliceFault;
pub use job::Job;
pub use local_steps::environments::{Env, Waiting};
pub use local_steps::{Frame, Frames, Masking};
pub use sliced::Slice;
pub use slicing::slice;
pub use stack::Stack;
