//! What stands for a state of the rules, and the one function that changes it by one entry.
//!
//! To a contract a `World` is a state with slots (`slot_states`), by `state_of` of the code that its threads' actions belong to
//! (`specs/Worlds`): the stacks of its threads, its cells with their lines, the exceptions in flight, the sleepers, the clock
//! and the numbers given so far. `lines` has what a thread writes that ends by an exception.
//!
//! The promise: where a world stands for the state that a run of an accepted script leaves, an entry that is legal there
//! changes it to one that stands for the state that the entry leaves (`Makes`). Where memory runs out it stands for the same
//! state as before. Which entry is next, what is printed, and the history are left to the caller.
#![tactic(auto)]

mod cells;
mod entries;
pub mod lines;
mod operating;
mod operations;
mod reading;
mod world;

pub use world::World;
