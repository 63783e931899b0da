//! The report over a written history of a script.
//!
//! To a contract a text is its bytes. The one promise is that of `report`: where the text is a trace of a run of the script, it
//! answers the report over this run (`report_of` of `tally`), and else what is refused by `trace_checker`. What the
//! numbers are is defined in `tally`, what a text and a run are in `trace_text::spelling` and `hs_rules`.
//!
//! A part with a head of its own: `tally`, what a report says, and the counts that it is written from.
#![tactic(auto)]

mod looking;
mod reporting;
pub mod tally;

pub use reporting::report;
// what a checked text comes to, for those who ask of one
pub use trace_checker::{Reached, RunFault, Verified, check_run};
