//! Files of rows: their lines, and the rows that these spell.
//!
//! `docs/ROWS.md` has the form. No clause says anything: a row that is read wrongly shows in the run of the rows. No word here is
//! the program's or its rules', so a change of these leaves this crate as it was. What a row is, its texts, and what of it an
//! answer lacks are left to `row_answers`, which is cut from this crate for the prover's cost alone; to open the files, to call
//! and to count to `conc_rows` and `row_trials`.
#![tactic(auto)]

mod draft;
mod keys;
mod outcomes;
mod plans;
mod reader;

pub use reader::{Misread, read_rows};
