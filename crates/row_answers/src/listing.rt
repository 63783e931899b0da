//! The listing of outcomes that a row wants, beside what came.

use crate::flaw::Flaw;
use crate::row::{Listing, Others, Outcome};
use crate::showing::{says, shown};
use std::alloc::{AllocError, Global};

/// A line, in which a number may be left open.
#[derive(Drop)]
pub struct Line {
    before: Vec<u8>,
    /// What follows the number, where one is left open.
    after: Option<String>,
}

impl Line {
    fn whole(before: Vec<u8>) -> Line {
        Line {
            before,
            after: None,
        }
    }

    /// A line with a number between these.
    pub fn numbered(before: Vec<u8>, after: String) -> Line {
        Line {
            before,
            after: Some(after),
        }
    }

    /// Whether these bytes are the line.
    pub fn is_spelled(&self, bytes: &[u8]) -> bool {
        match &self.after {
            None => self.before.as_slice() == bytes,
            Some(_) => self.number_in(bytes).is_some(),
        }
    }

    /// The digits of the number that is left open, where these bytes are the line.
    pub fn number_in<'a>(&self, bytes: &'a [u8]) -> Option<&'a [u8]> {
        let Some(after) = &self.after else {
            return None;
        };
        let rest = bytes.strip_prefix(self.before.as_slice())?;
        let digits = rest.strip_suffix(after.as_bytes())?;
        is_number(digits).then_some(digits)
    }

    fn shown(&self, alloc: Global) -> Result<String, AllocError> {
        let mut bytes = self.before.to_vec(alloc)?;
        if let Some(after) = &self.after {
            bytes.extend_from_slice(b"N")?;
            bytes.extend_from_slice(after.as_bytes())?;
        }
        shown(alloc, &bytes)
    }
}

fn is_number(digits: &[u8]) -> bool {
    !digits.is_empty() && digits.iter().all(|byte| byte.is_ascii_digit())
}

/// The first line of what came that is not as the row wants it.
pub fn listing_difference(
    alloc: Global,
    wanted: &Listing,
    case: u8,
    came: &[u8],
) -> Result<Option<String>, Flaw> {
    let lines = lines_of(alloc, wanted, case)?;
    let mut parts = came.split(|byte| *byte == b'\n');
    for line in &lines {
        match parts.next() {
            Some(part) if line.is_spelled(part) => {}
            part => return other_line(alloc, line, part),
        }
    }
    match (parts.next(), parts.next()) {
        (Some(rest), None) if rest.is_empty() => Ok(None),
        _ => says(
            alloc,
            "the listing goes on behind the last line that was wanted",
        ),
    }
}

fn other_line(alloc: Global, line: &Line, came: Option<&[u8]>) -> Result<Option<String>, Flaw> {
    let wanted = line.shown(alloc)?;
    let came = shown(alloc, came.unwrap_or(b""))?;
    Ok(Some(format!(in alloc; "wanted the line {wanted}, came {came}")?))
}

fn lines_of(alloc: Global, wanted: &Listing, case: u8) -> Result<Vec<Line>, Flaw> {
    let mut lines = Vec::new(alloc);
    lines.push(whole_line(alloc, first_line(alloc, wanted)?.as_str())?)?;
    let sentence = wanted.schedules.sentence();
    let states = format!(in alloc; " states; {sentence}")?;
    lines.push(Line::numbered(Vec::new(alloc), states))?;
    if !wanted.outcomes.is_empty() {
        lines.push(whole_line(alloc, "")?)?;
    }
    for (place, outcome) in wanted.outcomes.iter().enumerate() {
        push_block(alloc, &mut lines, place.saturating_add(1), outcome, case)?;
    }
    Ok(lines)
}

fn whole_line(alloc: Global, text: &str) -> Result<Line, AllocError> {
    Ok(Line::whole(text.as_bytes().to_vec(alloc)?))
}

// How many outcomes there are, and whether there may be others.
fn first_line(alloc: Global, wanted: &Listing) -> Result<String, AllocError> {
    let count = wanted.outcomes.len();
    let noun = if count == 1 { "outcome" } else { "outcomes" };
    match wanted.others {
        Others::None => format!(in alloc; "{count} {noun}, and there are no others"),
        Others::For(cause) => {
            format!(in alloc; "{count} {noun}, and there may be others: {cause}")
        }
    }
}

fn push_block(
    alloc: Global,
    lines: &mut Vec<Line>,
    number: usize,
    outcome: &Outcome,
    case: u8,
) -> Result<(), Flaw> {
    let (out, err) = (outcome.out.spell(case)?, outcome.err.spell(case)?);
    lines.push(head_of(alloc, number, outcome)?)?;
    if out.is_empty() {
        lines.push(whole_line(alloc, "   output: none")?)?;
    } else {
        lines.push(whole_line(alloc, "   output:")?)?;
        push_text(alloc, lines, &out)?;
    }
    if !err.is_empty() {
        lines.push(whole_line(alloc, "   errors:")?)?;
        push_text(alloc, lines, &err)?;
    }
    Ok(())
}

/// The first line on the outcome of this number, which leaves open how many entries its run has.
pub fn head_of(alloc: Global, number: usize, outcome: &Outcome) -> Result<Line, AllocError> {
    let end = outcome.end.word();
    let before = format!(in alloc; "{number}. {end}, after ")?;
    let after = String::from_str(alloc, " entries")?;
    Ok(Line::numbered(before.as_bytes().to_vec(alloc)?, after))
}

// The lines of a text: those that end in a line feed, and a last one that doesn't.
fn push_text(alloc: Global, lines: &mut Vec<Line>, text: &[u8]) -> Result<(), AllocError> {
    let mut last: Option<&[u8]> = None;
    for part in text.split(|byte| *byte == b'\n') {
        if let Some(whole) = last {
            lines.push(marked_line(alloc, b"     | ", whole)?)?;
        }
        last = Some(part);
    }
    match last {
        Some(rest) if !rest.is_empty() => {
            lines.push(marked_line(alloc, b"     : ", rest)?)?;
            Ok(())
        }
        _ => Ok(()),
    }
}

fn marked_line(alloc: Global, mark: &[u8], text: &[u8]) -> Result<Line, AllocError> {
    let mut bytes = mark.to_vec(alloc)?;
    bytes.extend_from_slice(text)?;
    Ok(Line::whole(bytes))
}
