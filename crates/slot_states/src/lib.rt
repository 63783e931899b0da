//! States whose threads are stacks with slots. This crate has no code: each public function with an empty body carries laws
//! as its contract, so that a caller may use them and a reader find them.
//!
//! To a contract a state with slots is what whoever keeps a run has in hand (`specs/SlotStates.antt`): a stack for each thread
//! with whether it is blocked and has finished, each cell with its line, the exceptions in flight, the sleepers, the clock and
//! counts. It stands for a state of the rules by `Represents`. What an entry makes of it is said there by a function for each
//! kind of entry and each operation.
//!
//! Its promise: where such a state stands for the state that a run of an accepted script leaves, and what is asked of the
//! thread holds, the entry is legal, and what it makes of the one stands for the state that it leaves. That a program's parts
//! are such a state is left to the crate that has them.
//!
//! Parts with a head of their own: `mapping`, one cell alone, in any type of values; `demands`, what each legal
//! entry asks of a state with slots; `entering`, what each entry makes of a state with slots, as one function.
#![tactic(auto)]

pub mod cells;
pub mod demands;
pub mod entering;
pub mod entries;
pub mod growing;
pub mod mapping;
pub mod operations;
pub mod outputs;
pub mod resting;
pub mod settling;
pub mod waiting;
