//! The calls of the top call that a row makes, and what they leave.
//!
//! No clause says more than that a call is made: the source, the sinks and the clock are in memory, as the row says. What of an
//! answer is not as the row says is left to `row_trials`.
#![tactic(auto)]

mod came;

pub use came::{Came, answer_to, call};
