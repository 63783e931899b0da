//! The reader of files of rows (docs/ROWS.md has the form).

use crate::draft::Draft;
use crate::keys::read_line;
use row_answers::{Flaw, Row};
use std::alloc::Global;
use std::fmt;

/// Why a file gives no rows.
#[derive(Clone, Copy)]
pub enum Misread {
    NoMemory,
    /// The line of this number, from 1, is no line of a row.
    Line(usize, &'static str),
}

impl fmt::Display for Misread {
    fn fmt<W: fmt::Write>(&self, f: &mut fmt::Formatter<W>) -> fmt::Result {
        match self {
            Misread::NoMemory => write!(f, "out of memory"),
            Misread::Line(number, says) => write!(f, "line {number}: {says}"),
        }
    }
}

/// The rows of a file, or the first line that is no line of a row.
pub fn read_rows(alloc: Global, file: &str) -> Result<Vec<Row>, Misread> {
    let mut rows = Vec::new(alloc);
    let mut draft = None;
    let mut number = 0usize;
    for line in file.lines() {
        number = number.saturating_add(1);
        draft = at_line(number, step(alloc, &mut rows, draft, line))?;
    }
    at_line(number, close(&mut rows, draft))?;
    Ok(rows)
}

// What a line's flaw is in the file.
fn at_line<T: Drop>(number: usize, read: Result<T, Flaw>) -> Result<T, Misread> {
    match read {
        Ok(value) => Ok(value),
        Err(Flaw::NoMemory) => Err(Misread::NoMemory),
        Err(Flaw::Says(says)) => Err(Misread::Line(number, says)),
    }
}

// Reads one line: the next row, or one more line of this one.
fn step(
    alloc: Global,
    rows: &mut Vec<Row>,
    draft: Option<Draft>,
    line: &str,
) -> Result<Option<Draft>, Flaw> {
    if line.is_empty() || line.starts_with("--") {
        return Ok(draft);
    }
    if let Some(head) = line.strip_prefix("# ") {
        close(rows, draft)?;
        return Ok(Some(Draft::new(alloc, row_name(head)?)?));
    }
    let Some(mut draft) = draft else {
        return Err(Flaw::Says("a row begins with `# name: what it shows`"));
    };
    read_line(&mut draft, line)?;
    Ok(Some(draft))
}

// Adds the row that was read.
fn close(rows: &mut Vec<Row>, draft: Option<Draft>) -> Result<(), Flaw> {
    if let Some(draft) = draft {
        rows.push(draft.finish()?)?;
    }
    Ok(())
}

// The name of a row, which has to be followed by what it shows.
fn row_name(head: &str) -> Result<&str, Flaw> {
    match head.split_once(": ") {
        Some((name, shows)) if is_kebab(name) && !shows.is_empty() => Ok(name),
        _ => Err(Flaw::Says(
            "a row begins with `# name: what it shows`, the name in small letters, digits and hyphens",
        )),
    }
}

fn is_kebab(name: &str) -> bool {
    !name.is_empty()
        && name
            .as_bytes()
            .iter()
            .all(|byte| matches!(*byte, b'a'..=b'z' | b'0'..=b'9' | b'-'))
}
