//! Tickets of jobs that are out.
//!
//! To a contract `Tickets` says the job of each ticket that is out, the ticket of each thread that has a job out, and which of
//! these tickets are overtaken: their thread received an exception since (`specs/tickets/Out`). The promise: a thread has at most one
//! job out, a ticket is taken back once, overtaken ones in order of their numbers, and only `room` takes memory.

mod tickets;

pub use tickets::{Out, Tickets};
