//! How far expressions unfold, by the calls of pure functions in them.
//!
//! A contract sees an extent as the lesser of the one that `rules_typing` defines and of 1,000,001 (`specs/Measuring`), and the
//! meter's scope as its names alone. The one promise: a call leaves the meter as it was, and answers the extent of the expression, or
//! the greatest of those of an action's or a block's expressions.
//!
//! A part with a head of its own: `sizes`, the sizes that the rule `Large` bounds.
#![tactic(auto)]

pub mod meter;
mod meter_acts;
pub mod sizes;
