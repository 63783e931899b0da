//! The cases of a row.

use crate::kept::first_difference;
use crate::witnesses::{Search, problem_witnessed};
use crate::written::problem_written;
use row_answers::{Case, Cases, Flaw, Row, Wanted};
use row_calls::call;
use std::alloc::Global;
use std::sync::Wait;
use std::thread::Threads;

/// What the first case gives that is not as the row says, if any.
pub fn problem_of<R: Threads + Wait + Sync>(
    alloc: Global,
    rt: &R,
    row: &Row,
) -> Result<Option<String>, Flaw> {
    for _ in 0..row.plan.times {
        if let Some(problem) = problem_once(alloc, rt, row)? {
            return Ok(Some(problem));
        }
    }
    Ok(None)
}

fn problem_once<R: Threads + Wait + Sync>(
    alloc: Global,
    rt: &R,
    row: &Row,
) -> Result<Option<String>, Flaw> {
    match &row.plan.cases {
        Cases::One => {
            let input = row.plan.input.spell(0)?;
            problem_at(alloc, rt, row, &row.plan.words, &input, &Case::Whole)
        }
        Cases::Bytes(ranges) => problem_of_bytes(alloc, rt, row, ranges),
        Cases::Parts => problem_of_parts(alloc, rt, row),
        Cases::Capabilities(counts) => problem_of_capabilities(alloc, rt, row, counts),
    }
}

fn problem_of_bytes<R: Threads + Wait + Sync>(
    alloc: Global,
    rt: &R,
    row: &Row,
    ranges: &[(u8, u8)],
) -> Result<Option<String>, Flaw> {
    for (first, last) in ranges {
        for byte in *first..=*last {
            let input = row.plan.input.spell(byte)?;
            let case = Case::Byte(byte);
            if let Some(problem) = problem_at(alloc, rt, row, &row.plan.words, &input, &case)? {
                return Ok(Some(format!(in alloc; "at byte {byte:02X}: {problem}")?));
            }
        }
    }
    Ok(None)
}

fn problem_of_parts<R: Threads + Wait + Sync>(
    alloc: Global,
    rt: &R,
    row: &Row,
) -> Result<Option<String>, Flaw> {
    let whole = row.plan.input.spell(0)?;
    for end in 1..whole.len() {
        let (part, rest) = whole.split_at(end);
        let case = Case::Part(part, rest);
        if let Some(problem) = problem_at(alloc, rt, row, &row.plan.words, part, &case)? {
            return Ok(Some(format!(in alloc; "at {end} bytes: {problem}")?));
        }
    }
    Ok(None)
}

fn problem_of_capabilities<R: Threads + Wait + Sync>(
    alloc: Global,
    rt: &R,
    row: &Row,
    counts: &[u8],
) -> Result<Option<String>, Flaw> {
    let input = row.plan.input.spell(0)?;
    for count in counts {
        let words = with_capabilities(alloc, &row.plan.words, *count)?;
        if let Some(problem) = problem_at(alloc, rt, row, &words, &input, &Case::Whole)? {
            return Ok(Some(format!(in alloc; "on {count} capabilities: {problem}")?));
        }
    }
    Ok(None)
}

// These words, and those that name so many capabilities.
fn with_capabilities(alloc: Global, words: &[String], count: u8) -> Result<Vec<String>, Flaw> {
    let mut all = Vec::new(alloc);
    for word in words {
        all.push(String::from_str(alloc, word.as_str())?)?;
    }
    all.push(String::from_str(alloc, "--caps")?)?;
    all.push(format!(in alloc; "{count}")?)?;
    Ok(all)
}

fn problem_at<R: Threads + Wait + Sync>(
    alloc: Global,
    rt: &R,
    row: &Row,
    words: &[String],
    input: &[u8],
    case: &Case<'_>,
) -> Result<Option<String>, Flaw> {
    let came = call(alloc, rt, &row.plan, words, input)?;
    if let Some(problem) = first_difference(alloc, &row.wanted, case, &came)? {
        return Ok(Some(problem));
    }
    let came = &came.answer;
    match (&row.wanted, &row.report) {
        (Wanted::Listed(listing), _) => {
            problem_witnessed(alloc, rt, listing, Search { words, input, came })
        }
        (_, Some(lines)) => problem_written(alloc, rt, lines, words, input, came),
        _ => Ok(None),
    }
}
