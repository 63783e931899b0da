//! A run that goes on: its history beside its clock, its ending, and the sinks that it prints to.
//!
//! To a contract a `Course` is a record beside its clock (`clocked`), the ending that was set, if any, and the sinks, now
//! and as they were lent. It keeps that the sinks were told what the history prints (`specs/Told`), and that an ending comes
//! only for its cause (`specs/Endings`). `settle` appends entries until nothing is legal but Ticks and local rules of threads
//! that are to do an action (`specs/Settled`); `accept` appends the local rules of a slice. Both set the ending that then
//! holds. Each entry that prints puts its bytes as one piece in the call that appends it.
//!
//! The promise: after an ending nothing is appended, and after a failed put nothing is put. Where memory runs out in `settle`
//! the run is as before the step that was refused, and the ending is Memory. Who makes slices is left to the caller.
//!
//! Parts with a head of their own: `history`, a history that is a run of a script, and the world that stands for
//! the state that it leaves; `clocked`, a run beside the clock that it goes by.
#![tactic(auto)]

pub mod clocked;
mod course;
mod ends;
pub mod history;
mod printing;
mod settling;

pub use course::Course;
pub use ends::RunEnd;
