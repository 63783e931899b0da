//! What each entry makes of a state in numbers.
//!
//! To a contract `next` is `next` of `slot_states::entering` on what a state stands for: it answers a state in numbers that stands for
//! the next one, or none where there is none. The texts of the two outputs go on by what the entry prints (`slot_states`).
//!
//! Its promise: exactly that, with all numbers in tables that have only grown. So a search that takes these moves takes the
//! moves of the rules. Which entries to try is left to the crate above.
//!
//! Parts with a head of their own: `operations`, the operation that a thread stands at, and what comes of the state
//! when it performs it; `rests`, eager local rules, taken at once.
#![tactic(auto)]

mod ending;
mod lines;
mod local;
mod moving;
pub mod operations;
mod receiving;
pub mod rests;
mod stranding;
mod ticking;
mod waiting;

pub use moving::next;
