//! Claims of a script: lines of it that say what its outcomes must be.
//!
//! To a contract a text is its characters, and what a claim says is a `Says` of plain data. Which lines are claims and what their words
//! are stands in `specs/Lines` and `specs/Words`, which words are a claim in `specs/Grammar`, what an outcome must be to meet one in
//! `specs/Meaning`, and when a claim holds, fails or is open in `specs/Verdicts`.
//!
//! Its promise: `read_claims` answers all the claims of a text, or the first place at which one is not written as claims are; `judge`
//! answers what the list of outcomes decides of each, line by line. What that says of all runs of a script is `verdicts_tell_of_runs`.
//! Whether the list is that of a script is left to the search.
#![tactic(auto)]

mod characters;
mod claim;
mod draft;
mod judging;
mod laws;
mod lines;
mod literal;
mod meeting;
mod reading;
mod verdict;
mod words;
mod writing;

pub use claim::{Claim, ClaimFault, Part, Says};
pub use judging::judge;
pub use laws::verdicts_tell_of_runs;
pub use reading::read_claims;
pub use verdict::{Judged, Verdict};
