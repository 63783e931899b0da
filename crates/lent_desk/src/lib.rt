//! A desk that several capabilities run, with a name in its type for what it was lent.
//!
//! To a contract a `LentDesk` is its desk: the plan, the history and the ending of it. Its type keeps what the sinks had been told
//! and the clock had read when they were lent, which no plan says and which the loop of the capabilities knows nothing of. It
//! is a `Runs` of `caps_visits`, over the jobs and slices of `frame_stack`.
//!
//! The promise: what a capability does with the desk keeps its plan, and its history begins with the one before; and the desk
//! that is taken out was lent what the first was. Which slices are committed in which turn is left to the capabilities, and so
//! is how far the desk goes on in place.
#![tactic(auto)]

mod desk;
mod lent;
mod runs;

// what a desk is, for those who lend one
pub use conc_world::{Closed, Desk, Parts, RunEnd, Shows, alone};
pub use desk::LentDesk;
pub use lent::LentAs;
