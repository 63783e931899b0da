//! The runs that come to the outcomes of a row: written and verified.

use crate::written::{ample_plan, with_name};
use row_answers::{Answer, Flaw, Line, Listing, Outcome, head_of, says, shown};
use row_calls::answer_to;
use std::alloc::{AllocError, Global};
use std::sync::Wait;
use std::thread::Threads;

/// A search as it was called, and its listing.
#[derive(Clone, Copy)]
pub struct Search<'a> {
    pub words: &'a [String],
    pub input: &'a [u8],
    pub came: &'a Answer,
}

/// What is not as it should be where the run of each outcome is written and verified, if anything: the command for it has the
/// status of the search, and `verify` finds a run that has as many entries as is listed and ends as is listed.
pub fn problem_witnessed<R: Threads + Wait + Sync>(
    alloc: Global,
    rt: &R,
    listing: &Listing,
    search: Search<'_>,
) -> Result<Option<String>, Flaw> {
    for (place, outcome) in listing.outcomes.iter().enumerate() {
        let number = place.saturating_add(1);
        if let Some(problem) = problem_of_run(alloc, rt, number, outcome, search)? {
            return Ok(Some(format!(in alloc; "outcome {number}: {problem}")?));
        }
    }
    Ok(None)
}

fn problem_of_run<R: Threads + Wait + Sync>(
    alloc: Global,
    rt: &R,
    number: usize,
    outcome: &Outcome,
    search: Search<'_>,
) -> Result<Option<String>, Flaw> {
    let plan = ample_plan(alloc)?;
    let words = with_witness(alloc, search.words, number)?;
    let written = answer_to(alloc, rt, &plan, &words, search.input)?;
    if written.status != search.came.status || !written.err.is_empty() {
        return says(
            alloc,
            "the command for its run has another status, or told an error",
        );
    }
    let words = with_name(alloc, &[], "verify")?;
    let verified = answer_to(alloc, rt, &plan, &words, &written.out)?;
    let wanted = verified_line(alloc, number, outcome, &search.came.out)?;
    if verified.status == 0 && is_line(&wanted, &verified.out) {
        return Ok(None);
    }
    let (out, err) = (shown(alloc, &verified.out)?, shown(alloc, &verified.err)?);
    Ok(Some(format!(in alloc; "`verify` of its run tells {out} and {err}")?))
}

// What `verify` finds, which leaves open how many steps the run has.
fn verified_line(
    alloc: Global,
    number: usize,
    outcome: &Outcome,
    listing: &[u8],
) -> Result<Line, AllocError> {
    let head = head_of(alloc, number, outcome)?;
    let mut before = b"a run: ".to_vec(alloc)?;
    before.extend_from_slice(entries_in(&head, listing))?;
    before.extend_from_slice(b" entries, ")?;
    let end = outcome.end.word();
    let after = format!(in alloc; " steps, {end}")?;
    Ok(Line::numbered(before, after))
}

// The number of entries that the listing has in this line.
fn entries_in<'a>(head: &Line, listing: &'a [u8]) -> &'a [u8] {
    for part in listing.split(|byte| *byte == b'\n') {
        if let Some(digits) = head.number_in(part) {
            return digits;
        }
    }
    b""
}

// Whether a text is this line, with its line feed.
fn is_line(line: &Line, text: &[u8]) -> bool {
    match text.strip_suffix(b"\n") {
        Some(part) => line.is_spelled(part),
        None => false,
    }
}

// These words, and those that ask for the run of the outcome of this number.
fn with_witness(alloc: Global, words: &[String], number: usize) -> Result<Vec<String>, AllocError> {
    let mut all = Vec::new(alloc);
    for word in words {
        all.push(String::from_str(alloc, word.as_str())?)?;
    }
    all.push(String::from_str(alloc, "--witness")?)?;
    all.push(format!(in alloc; "{number}")?)?;
    Ok(all)
}
