//! States of a search in numbers: terms, values, exceptions and texts each by a number of a table, and states that hold such
//! numbers alone.
//!
//! To a contract `Numbers` is a `Stock`, the lists of what its numbers stand for (`specs/Stocks`), and a `NumberState` stands
//! for the state with slots that `slots` of `specs/States` says, in every code. A change of a state says by `Becomes` which
//! function of `slot_states` it is on what the state stands for.
//!
//! Its promise: the tables only grow, a state whose numbers are those of something stands for the same at any later time, each
//! change makes exactly what its function makes, and states with one key hold the same and so stand for the same. What an entry
//! makes of a state is left to the crate above.
//!
//! A part with a head of its own: `waits`, who waits, in numbers: cells with their lines, exceptions in flight, and
//! sleepers.
#![tactic(auto)]

mod beginning;
mod held;
pub mod laws;
mod numbers;
mod state;
mod terms;
mod threads;
mod timing;
mod using;
pub mod waits;

pub use beginning::first;
pub use numbers::Numbers;
pub use state::{NumberState, NumberThread};
pub use using::used;
