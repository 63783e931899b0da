//! Cells (`MVar`s) and the threads that wait at them.
//!
//! To a contract `Cells` is two things: the list of the cells, by number, each its content and its line, the longest
//! waiting first; and `spare`, how many more cells and waiters fit before `room` is called again.
//!
//! The promise: each call is one call of the machine of one cell alone (`rules_waiting`, `OneCell`) on its cell, and leaves
//! all other cells as they were; each answer says what the cell was; once room was made no call takes memory, but for the
//! copy that `read` answers. A put needs that nobody reads: its caller takes the readers out by `next_reader`, and
//! `readers` has the law that these calls together are the machine's put. Whom a call must wake is its answer, and waking
//! is left to the caller.
#![tactic(auto)]

mod befores;
mod cells;
mod lines;
pub mod readers;

pub use cells::{Cells, Gave, Saw, Took, Tried};
