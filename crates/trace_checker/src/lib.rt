//! The check of a trace: whether a text spells a run of a script, by the rules alone.
//!
//! To a contract a text is its bytes, and a script its definitions. A `Walk` stands for the entries that were read of a text and
//! for the state that they leave (`specs/Walking`); whoever wants to look at each state of a written history goes along it by one.
//! The promise of `check_run`: it answers `Verified` exactly where the text is a trace of a run of at most 4,000,000 steps, with
//! what this run has come to; else the first line that is no line of a trace, or at which there are too many steps, or whose entry
//! isn't legal after those before it (`Judges` of `specs/Checking`). A walk answers the same faults. That a text has one such answer
//! is `one_verdict`. Which scripts there are, and where texts come from, is left to the caller.
//!
//! A part with a head of its own: `player`, one object that goes along a history by its legal entries.
#![tactic(auto)]

mod checking;
mod laws;
pub mod player;
mod steps;
mod verdict;
mod walk;

pub use crate::player::Reached;
pub use checking::check_run;
pub use laws::one_verdict;
pub use verdict::{RunFault, Verified};
pub use walk::Walk;
