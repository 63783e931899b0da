//! The hands: queues of jobs and of finished slices, and cut flags, that several capabilities share.
//!
//! To a contract `Hands` is a number of hands and a code, which all jobs and slices belong to. A `Hand` is one
//! capability's token: its number, its `room`, the tickets that it has pushed, taken (popped or stolen), handed in,
//! collected and raised, and what it has read in the flags. A `HandList` is a list of hands, and `spare`, how many more
//! fit. A `Leftover` is what was never taken.
//!
//! The promise, at `close` over all hands: the pushed tickets are the taken ones together with the jobs left, and the
//! handed-in ones are the collected ones together with the slices left, each as often; each number other than 0 that a
//! hand read in a flag is a ticket that a hand raised.
//!
//! Running jobs, committing slices and waking capabilities are left to the caller. Nothing is said of order beyond what
//! the queues do, of fairness, or of how long a call that may wait does wait.
//!
//! Parts with a head of their own: `flags`, words in which capabilities tell each other that a running job is to be
//! cut; `queues`, deques and an inbox of things with tickets.
#![tactic(auto)]

mod close;
mod cuts;
mod deal;
mod ends;
pub mod flags;
mod gather;
mod hand;
mod hands;
mod jobs;
mod left;
mod left_calls;
mod list;
mod make;
pub mod queues;
mod slices;

pub use hand::Hand;
pub use hands::Hands;
pub use left::{JobsLeft, Leftover, SlicesLeft};
pub use list::HandList;
