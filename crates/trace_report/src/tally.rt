//! The report over a history: what it says, and the counts that it is written from.
//!
//! To a contract a `Tally` is the counts of each thread and of each cell, by number, and all steps so far. The promise: what an
//! entry adds to each number of the report is said by what can be seen of the states before and after it (`IsCounted` of
//! `specs/tally/Tallying`), so a tally that counted each entry of a run has the numbers of the report (`counts_go_on`). What is seen
//! of an entry, and whether a history is a run, is left to the caller.

mod counts;
mod laws;
mod tally;
mod touch;
mod writing;

pub use counts::{CellCounts, Seen, ThreadCounts};
pub use laws::{cells_hold_the_rest, counts_go_on};
pub use tally::Tally;
pub use touch::Touch;
pub use writing::Word;
