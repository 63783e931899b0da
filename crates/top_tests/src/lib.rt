//! Tests of the top call that are no rows: those that call twice, over what tells no bytes, or with a gate that holds a slice.
//! The rows are data of `conc_rows` (`docs/ROWS.md`).
//!
//! Parts with a head of their own: `outcomes`, the text of what a search found; `traces`, written histories;
//! `checking`, the check of written histories.
#![tactic(auto)]

mod asked;
pub mod checking;
mod crowd;
mod heard_clock;
mod holder;
mod meeting;
pub mod outcomes;
mod signals;
pub mod traces;

pub use asked::AskedClock;
pub use crowd::Crowd;
pub use heard_clock::{HeardClock, Listener};
pub use holder::{Holder, Holds};
pub use meeting::Meeting;
pub use signals::{Counter, Flag};

#[cfg(test)]
mod beside;
#[cfg(test)]
mod calls;
