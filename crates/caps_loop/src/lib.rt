//! Several capabilities run one kept value under a turn.
//!
//! What is run is any `Runs` of `caps_visits`: a value with a plan and a history that hands out jobs and takes their slices
//! back. To a contract of this crate it is its plan, its history and whether there is an ending. A capability is a seat of
//! the turn and a hand; what it does by itself, and what keeps its seat and its hand right, is in `caps_visits`.
//!
//! The promise: `run_caps` hands back a value of the same plan, with an ending, whose history begins with the one that was
//! handed in. It holds because no visit can give the turn back with a value of another plan, or with a history that doesn't
//! begin with the one that was found, and because all seats are put together at the end.
//!
//! Which capability runs which job, and in which order slices come back, is left to the schedule. Nothing is said of how
//! long a capability waits, nor that two slices ran at the same time.
#![tactic(auto)]

mod halves;

pub use halves::run_caps;
