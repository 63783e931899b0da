//! Runs that a search found, entered again in exact time.
//!
//! To a contract a walk is at a state in numbers, with the history that leads there (`IsAt` of `specs/walks/Entering`), and what it shows
//! is said in the words of the rules (`specs/walks/Walking`): that its history is a run of the timing within the limits that keeps the
//! law of the clock, how it has ended, which limit its last state exceeds, or that it came back to a state.
//!
//! Its promise: whatever a walk answers is so of its history. That the path of a search can be walked is not promised: where an
//! entry can't be entered the answer is want of memory. No row has met that.

mod judging;
mod rounds;
mod still;
mod walk;

pub use rounds::{are_alike, is_another, works};
pub use walk::{Ticks, Walk};
