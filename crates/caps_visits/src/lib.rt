//! What one capability does: its visits to the value under the turn, how it finds a job and runs its slice, and where it waits.
//!
//! What is run is any `Runs`: a value with a plan and a history that hands out jobs and takes their slices back. To a
//! contract of this crate it is its plan, its history and whether there is an ending; a job and a slice are the code that
//! they belong to. A capability is a seat of the turn and a hand. `Parkers` is how many berths there are.
//!
//! The promise: what a call leaves is a seat that has seen what the seat before had seen, and a hand of the same hands; and
//! each job and slice that it answers belongs to the code of the hands. It holds because no visit can give the turn back with
//! a value of another plan, or with a history that doesn't begin with the one that was found.
//!
//! Which jobs a capability runs, and when it waits, is left to the schedule. Nothing is said of how long it waits, of who is woken,
//! or of what a visit commits. That all of them together stand apart, in `caps_loop`, is for the prover's cost.
#![tactic(auto)]

mod asking;
mod capability;
mod cutting;
mod jobs;
mod next;
mod object;
mod parkers;
mod running;
mod runs;
mod shared;
mod turns;
mod visiting;
mod watch;
mod working;

pub use capability::Capability;
pub use parkers::{Parkers, parkers_for};
pub use runs::{Runs, Unsliced};
pub use shared::{Planned, Shared};
pub use working::work;
