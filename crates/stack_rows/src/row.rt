//! The rows of a file.

use crate::flaw::Flaw;
use hs_base::Mask;
use std::alloc::{AllocError, Global};

/// The greatest budget of a job.
const BUDGET: u32 = 1024;

/// What a stack does after it has accepted the slice.
#[derive(Clone, Copy, Debug, PartialEq, Eq)]
pub enum After {
    Pop,
    Answer,
    Receive,
}

/// A script, and what the first slice of its `main` comes to.
#[derive(Debug, Drop)]
pub struct Row {
    pub name: String,
    pub script: String,
    /// The masking scope in which `main` stands, if any.
    pub mask: Option<Mask>,
    /// From 1 to 1,024.
    pub budget: u32,
    /// So many slices at most, one after the other.
    pub slices: u32,
    pub then: Vec<After>,
    pub gives: String,
}

impl Row {
    fn new(alloc: Global, name: &str) -> Result<Row, AllocError> {
        Ok(Row {
            name: String::from_str(alloc, name)?,
            script: String::new(alloc),
            mask: None,
            budget: BUDGET,
            slices: 1,
            then: Vec::new(alloc),
            gives: String::new(alloc),
        })
    }
}

/// The rows of a file, or the first line that is no line of a row.
pub fn read_rows(alloc: Global, file: &str) -> Result<Vec<Row>, Flaw> {
    let mut rows = Vec::new(alloc);
    let mut row = None;
    let mut number = 0usize;
    for line in file.lines() {
        number = number.saturating_add(1);
        row = step(alloc, &mut rows, row, number, line)?;
    }
    if let Some(last) = row {
        rows.push(last)?;
    }
    Ok(rows)
}

// Reads one line: the next row, or one more line of this one.
fn step(
    alloc: Global,
    rows: &mut Vec<Row>,
    row: Option<Row>,
    number: usize,
    line: &str,
) -> Result<Option<Row>, Flaw> {
    if line.is_empty() || line.starts_with("--") {
        return Ok(row);
    }
    if let Some(head) = line.strip_prefix("# ") {
        if let Some(done) = row {
            rows.push(done)?;
        }
        return match head.split_once(": ") {
            Some((name, _)) => Ok(Some(Row::new(alloc, name)?)),
            None => Err(Flaw::Line(number)),
        };
    }
    let Some(mut row) = row else {
        return Err(Flaw::Line(number));
    };
    if read_line(&mut row, line)? {
        Ok(Some(row))
    } else {
        Err(Flaw::Line(number))
    }
}

// Takes a line into a row, if it is one.
fn read_line(row: &mut Row, line: &str) -> Result<bool, Flaw> {
    if let Some(text) = line.strip_prefix("| ") {
        row.script.push_str(text)?;
        row.script.push_str("\n")?;
        return Ok(true);
    }
    let Some((key, value)) = line.split_once(" ") else {
        return Ok(false);
    };
    match key {
        "budget" => Ok(read_budget(row, value)),
        "slices" => Ok(read_slices(row, value)),
        "mask" => Ok(read_mask(row, value)),
        "then" => read_then(row, value),
        "gives" => {
            row.gives.push_str(value)?;
            Ok(true)
        }
        _ => Ok(false),
    }
}

fn read_budget(row: &mut Row, value: &str) -> bool {
    match value.parse::<u32>() {
        Ok(budget) if budget >= 1 && budget <= BUDGET => {
            row.budget = budget;
            true
        }
        _ => false,
    }
}

fn read_slices(row: &mut Row, value: &str) -> bool {
    match value.parse::<u32>() {
        Ok(slices) => {
            row.slices = slices;
            true
        }
        Err(_) => false,
    }
}

fn read_mask(row: &mut Row, value: &str) -> bool {
    let mask = match value {
        "Unmasked" => Mask::Unmasked,
        "MaskedInterruptible" => Mask::Masked,
        "MaskedUninterruptible" => Mask::Uninterruptible,
        _ => return false,
    };
    row.mask = Some(mask);
    true
}

fn read_then(row: &mut Row, value: &str) -> Result<bool, Flaw> {
    for word in value.split(", ") {
        let after = match word {
            "pop" => After::Pop,
            "answer" => After::Answer,
            "receive" => After::Receive,
            _ => return Ok(false),
        };
        row.then.push(after)?;
    }
    Ok(true)
}
