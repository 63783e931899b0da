//! Rows of slices: what the first slices of a script's `main` come to, and what its stack does then.
//!
//! Each row of `data/stacks.rows` is a script. Its code is made as ever, `slice` runs the body of `main` alone, and a stack
//! accepts the slice; then it does what the row says. A line is printed for each row that comes to something else, and a last
//! line with the count. A row is
//!
//! ```text
//! # name: what it shows
//! | a line of the script
//! mask MaskedInterruptible
//! budget 4
//! slices 2
//! then receive, pop, answer
//! gives 4 rules, doing, Unmasked, 1 frames
//! ```
//!
//! where all but the script and the last line may be left out: `main` stands in no masking scope then, and there is one slice
//! of at most 1,024 rules. `receive` receives `UserInterrupt`, `answer` answers `()`, `pop` is one rule of a value or an
//! exception in a frame. What is given at the end are the rules of the slices, the control, the masking state there, and the
//! frames.
#![tactic(auto)]

mod flaw;
mod play;
mod row;
mod shown;
mod thread;

use crate::flaw::Flaw;
use crate::play::outcome;
use crate::row::{Row, read_rows};
use std::fs;
use std::process::ExitCode;

const FAILED: u8 = 1;

fn main(rt: HostRuntime) -> ExitCode {
    match try_rows(&rt) {
        Ok(0) => ExitCode::from(0),
        Ok(_) => ExitCode::from(FAILED),
        Err(flaw) => {
            let _ = println!(rt; "stacks.rows: {flaw}");
            ExitCode::from(FAILED)
        }
    }
}

// Tries the rows, and answers how many came to something else.
fn try_rows(rt: &HostRuntime) -> Result<usize, Flaw> {
    let Ok(file) = fs::read_to_string(rt, "stacks.rows") else {
        return Err(Flaw::Says("the file can't be read"));
    };
    let rows = read_rows(rt.alloc(), file.as_str())?;
    let mut failed = 0usize;
    for row in &rows {
        if !passes(rt, row)? {
            failed = failed.saturating_add(1);
        }
    }
    let count = rows.len();
    match println!(rt; "{count} rows, {failed} failed") {
        Ok(()) => Ok(failed),
        Err(_) => Err(Flaw::Says("the output can't be written")),
    }
}

// Tries a row, and prints what it comes to where that is something else.
fn passes(rt: &HostRuntime, row: &Row) -> Result<bool, Flaw> {
    let came = outcome(rt.alloc(), row)?;
    if came.as_str() == row.gives.as_str() {
        return Ok(true);
    }
    let name = row.name.as_str();
    let came = came.as_str();
    match println!(rt; "{name}: {came}") {
        Ok(()) => Ok(false),
        Err(_) => Err(Flaw::Says("the output can't be written")),
    }
}
