//! The search over all schedules of a script: its states, each once, breadth first.
//!
//! To a contract a state of the search is what it shows (`Shown` of `search_laws`: a state with slots, in real timing without
//! time, and both outputs), and what was found is a `Found`: the states by number, for each where it came from and how a run that
//! comes to it has ended, and the moves between them.
//!
//! Its promise: each state is one that some run of the timing comes to, within the fuel and the limits; where there is no gap,
//! each outcome of the script is that of some state; and a gap comes with the path on which it was met. Outcomes, witnesses and
//! whether every schedule ends are left to the crates above.
#![tactic(auto)]

mod candidates;
mod found;
mod going;
mod kinds;
mod searching;

pub use candidates::entries_to_try;
pub use found::{Found, Gap, Move, Origin};
pub use going::forget_time;
pub use kinds::{ended, exceeded, reads_time};
pub use searching::search;
