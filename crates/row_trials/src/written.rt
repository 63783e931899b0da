//! The history of what a row runs: written, verified, and reported.

use row_answers::{Answer, Flaw, Plan, Text, shown};
use row_calls::answer_to;
use std::alloc::{AllocError, Global};
use std::sync::Wait;
use std::thread::Threads;

/// Room for the documents that rows write.
const ROOM: usize = 10_000_000;

/// What is not as it should be where the same words and input are written, verified and reported, if anything: `trace` has the
/// status of the run, `verify` finds a run, and `report` has these lines among its own.
pub fn problem_written<R: Threads + Wait + Sync>(
    alloc: Global,
    rt: &R,
    lines: &Text,
    words: &[String],
    input: &[u8],
    ran: &Answer,
) -> Result<Option<String>, Flaw> {
    let plan = ample_plan(alloc)?;
    let written = answer_to(alloc, rt, &plan, &with_name(alloc, words, "trace")?, input)?;
    if written.status != ran.status {
        let status = written.status;
        return Ok(Some(format!(in alloc; "`trace` has status {status}")?));
    }
    let verified = answer_to(
        alloc,
        rt,
        &plan,
        &with_name(alloc, &[], "verify")?,
        &written.out,
    )?;
    let reported = answer_to(
        alloc,
        rt,
        &plan,
        &with_name(alloc, &[], "report")?,
        &written.out,
    )?;
    if verified.status != 0 || reported.status != 0 {
        let err = shown(alloc, &verified.err)?;
        return Ok(Some(format!(in alloc; "what `trace` writes is no run: {err}")?));
    }
    problem_reported(alloc, &lines.spell(0)?, &reported.out)
}

// The first of these lines that the report hasn't.
fn problem_reported(alloc: Global, lines: &[u8], report: &[u8]) -> Result<Option<String>, Flaw> {
    for line in lines.split(|byte| *byte == b'\n') {
        if !line.is_empty() && !report.split(|byte| *byte == b'\n').any(|own| own == line) {
            let line = shown(alloc, line)?;
            let report = shown(alloc, report)?;
            return Ok(Some(format!(in alloc; "wanted {line}, the report is {report}")?));
        }
    }
    Ok(None)
}

/// No fault, and room for a document.
pub fn ample_plan(alloc: Global) -> Result<Plan, AllocError> {
    let mut plan = Plan::new(alloc)?;
    plan.out.room = ROOM;
    Ok(plan)
}

/// This command, with the options of these words.
pub fn with_name(alloc: Global, words: &[String], name: &str) -> Result<Vec<String>, AllocError> {
    let mut all = Vec::new(alloc);
    all.push(String::from_str(alloc, name)?)?;
    for word in words.iter().skip(1) {
        all.push(String::from_str(alloc, word.as_str())?)?;
    }
    Ok(all)
}
