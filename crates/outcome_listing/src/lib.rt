//! What a search over all schedules answers, and its text.
//!
//! To a contract a `Final` is the end of an outcome of `outcome_laws` (`final_of` of `specs/Finals`), and a list of outcomes is
//! the list of its items; an outcome has the bytes of its texts and the entries of its witness.
//!
//! Its promise: `listing` answers exactly the text of what it is given (`listing_of` of `specs/Listing`), and two lists of
//! outcomes with one text have the same ends, outputs and errors. Whether the outcomes are those of a script is left to the
//! search that lists them.
#![tactic(auto)]

mod bounds;
mod explored;
mod laws;
mod writing;

pub use bounds::Bounds;
pub use explored::{Cause, Endless, Explored, Extent, Final, Outcome};
pub use laws::{lines_say_their_text, listings_say_their_outcomes};
pub use writing::{listing, write_cause};
