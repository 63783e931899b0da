//! The operation that a thread of a state in numbers stands at, and what comes of the state when the thread performs it.
//!
//! To a contract `operate` is the entry `Op` of `next` of `slot_states::entering` on what a state stands for, as `Enters`
//! (`number_changes`) says it of any entry: it answers a state in numbers that stands for the next one, or none where there is
//! none.
//!
//! Its promise: exactly that, with all numbers in tables that have only grown. The other entries are left to what stands above.

mod operating;

pub use operating::operate;
