//! Ends of runs in the order of outcomes.
//!
//! To a contract an `Ended` has the outcome that `outcome_by` of `specs/order/Rising` says, and `Endings` are the list of their items.
//!
//! Its promise: the list rises strictly (`IsRising`), so no outcome stands twice, and of several with one outcome the first that
//! was added stays. Which states have ended is left to whoever adds them.

mod ended;
mod endings;

pub use ended::{Ended, compare};
pub use endings::Endings;
