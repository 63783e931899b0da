//! The desk: one history of one script, the jobs that are out, and what becomes of slices that come back.
//!
//! To a contract a `Desk` is its plan, its history, its ending, and the tickets that are out. Its type keeps that the history is
//! a run of the plan's script, that the world stands for the state that this run leaves, that its clock is none that the
//! handed-in clock hadn't reached, that Ticks stand where they may, that the sinks were told what the history prints, and that
//! an ending comes for its cause (`specs/Runs`, `close`). `settle` appends entries until only slices are left; `next_job`
//! makes a job of a thread that is to do an action; `commit` appends the local rules of a slice, or says why not
//! (`specs/Committing`), and `commit_or_redo` does so in a time that the slice's own steps bound; `overtaken` names jobs that
//! an exception has overtaken (`specs/Jobs`); `go_on` runs short slices in place; `alone` runs it all.
//!
//! The promise: whatever is committed, in whatever order, the history is a run, and after an ending it stays as it is. That
//! slices run beside each other, and who runs them, is left to the caller.
//!
//! A part with a head of its own: `tickets`, tickets of jobs that are out.
#![tactic(auto)]

mod answers;
mod commit;
mod desk;
mod jobs;
mod redoing;
mod running;
pub mod tickets;

pub use answers::{Closed, Committed, Made, Parts, Shows, Why};
pub use desk::Desk;
pub use jobs::MOST_STEPS;
pub use run_course::RunEnd;
pub use running::alone;
