//! Rows that are tried: what of the calls that a row makes is not as it says.
//!
//! No clause says anything: the rows show that what is proved is what was meant. A row is called once for each of its cases
//! (`row_calls`); where it says so, what ran is written, verified and reported, and so is the run of each outcome. What a row
//! says, and what of it an answer lacks, is left to `row_answers`.
#![tactic(auto)]

mod cases;
mod kept;
mod witnesses;
mod written;

pub use cases::problem_of;
