//! The threads of a run: their stacks, the exceptions in flight to them, and who has something to do.
//!
//! To a contract `Threads` is its list of threads, by number, its flight, and lists of numbers: each thread with an entry of
//! its own or something to receive is in the list of work, each that is to do an action in the list of the ready, and each
//! that may be stranded in the list of those (`specs/Listing`). A list may have a thread twice, and one that has nothing to
//! do: that costs a look when it is taken out, so no call looks through all threads. Which threads have a job out is known
//! to the caller: a look for one that has none passes those that have.
//!
//! It also counts the frames of the threads that haven't finished, and the threads that are to do an action (`specs/Table`,
//! `specs/Listing`). A thread may get frames only while there are fewer than 2^62 in all, so no sum of them wraps.
//!
//! The promise: each call changes the one thread that it names, and where a list has nobody left, nobody has such a thing to
//! do. Which change is right is left to the caller.
#![tactic(auto)]

mod having;
mod kinds;
mod listing;
mod next;
mod thread;
mod threads;

pub use kinds::EntryKind;
pub use thread::Thread;
pub use threads::Threads;
