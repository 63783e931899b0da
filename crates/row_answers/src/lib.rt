//! Rows: what a row says, and what of it a call's answer lacks.
//!
//! A row is a script, how the top call is called on it, and what that is to give (`docs/ROWS.md` has the form). Texts in quotes are
//! read here too, since what they say makes a `Text`. No clause says anything: a row that is compared wrongly shows in the run of
//! the rows. No word here is the program's or its rules', so a change of these leaves this crate as it was. To read the other lines
//! of a row is left to `row_files`, from which this crate is cut for the prover's cost alone; to call, and to look at the history
//! that a call kept, to `row_trials`.
#![tactic(auto)]

mod entry;
mod flaw;
mod listing;
mod row;
mod showing;
mod text;
mod wanted;

pub use entry::EntryLine;
pub use flaw::Flaw;
pub use listing::{Line, head_of};
pub use row::{
    Cases, ClockPlan, End, Listing, Others, Outcome, Place, Plan, Refusal, Row, Schedules,
    SinkPlan, SourcePlan, Told, Wanted,
};
pub use showing::{says, shown};
pub use text::{Letter, Text, hex_digit, letters_of, texts_of};
pub use wanted::{Answer, Case, difference};
