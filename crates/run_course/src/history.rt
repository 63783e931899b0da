//! A history that is a run of a script, and the world that stands for the state that it leaves.
//!
//! To a contract a `Record` is its history, its world, its fuel, its limits and the code that it is a run of. It keeps that
//! the history is a run of that code's script within the fuel and the limits, and that the world stands for the state that
//! this run leaves (`src/history/record.rt`). `next` says what can be done next (`IsNext` of `specs/history/Records`), and `next_ready` of
//! which thread a job may be made; `act`, `tick` and `accept` append one entry and change the world by it, or answer the limit
//! that the entry would exceed; `piece` is what an act prints.
//!
//! The promise: each entry that is appended is legal, an entry that isn't leaves a state beyond a limit, and what `next`
//! answers decides how the history ends (`endings`). Each thread that is to do an action may have a job (`going`). Where memory
//! runs out the record is the same as before. Which jobs are out, which slice is accepted, when the clock goes on, and the
//! writing of what is printed are left to the caller.

mod acting;
mod acts;
mod beginning;
pub mod endings;
pub mod going;
mod limits;
mod next;
mod pieces;
mod ready;
mod record;

pub use acts::{Next, NextEntry};
pub use next::next_of;
pub use pieces::{PrintedPiece, Stream};
pub use record::Record;
