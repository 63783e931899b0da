//! The lines of a row.

use crate::draft::Draft;
use crate::outcomes::{others_of, outcome_of, schedules_of};
use crate::plans::{
    byte_ranges, entries_of, entry_of, number_of, numbers_of, refusal_of, sink_of, source_of,
    words_of,
};
use row_answers::{Cases, ClockPlan, Flaw, Plan, Text};
use std::alloc::Global;

/// Adds what a line says to a row.
pub fn read_line(draft: &mut Draft, line: &str) -> Result<(), Flaw> {
    if let Some(text) = line.strip_prefix("|") {
        if !draft.plan.input.is_empty() {
            draft.plan.input.add(b"\n")?;
        }
        draft.plan.input.add(after_blank(text).as_bytes())?;
        return Ok(());
    }
    if let Some(text) = line.strip_prefix("+") {
        draft.plan.input.add(after_blank(text).as_bytes())?;
        return Ok(());
    }
    if let Some(rest) = line.strip_prefix("out ") {
        if is_quoted(rest) {
            return add_quoted(&mut draft.told.out, rest);
        }
    }
    if let Some(rest) = line.strip_prefix("err ") {
        if is_quoted(rest) {
            return add_quoted(&mut draft.told.err, rest);
        }
    }
    if is_quoted(line) {
        return add_quoted(&mut draft.plan.input, line);
    }
    match line.split_once(':') {
        Some((key, value)) => read_key(draft, key, after_blank(value)),
        None => read_mark(draft, line),
    }
}

// A blank after a mark is not part of the text.
fn after_blank(text: &str) -> &str {
    match text.strip_prefix(" ") {
        Some(rest) => rest,
        None => text,
    }
}

fn is_quoted(line: &str) -> bool {
    line.starts_with("bytes ") || line.starts_with("repeat ")
}

// `bytes "TEXT"` or `repeat N "TEXT"`
fn add_quoted(text: &mut Text, line: &str) -> Result<(), Flaw> {
    if let Some(quoted) = line.strip_prefix("bytes ") {
        return text.add_quoted(1, quoted);
    }
    let Some(rest) = line.strip_prefix("repeat ") else {
        return Err(Flaw::Says("`bytes` or `repeat` is wanted here"));
    };
    match rest.split_once(' ') {
        Some((times, quoted)) => text.add_quoted(number_of(times)?, quoted),
        None => Err(Flaw::Says("`repeat` has a number and a text in quotes")),
    }
}

// A line of one word or two.
fn read_mark(draft: &mut Draft, line: &str) -> Result<(), Flaw> {
    match line {
        "later" => draft.later = true,
        "accepted" => draft.accepted = true,
        "written" => draft.report = Some(Text::new(draft.alloc)),
        "each part" => draft.plan.set_cases(Cases::Parts)?,
        _ => return Err(Flaw::Says("this is no line of a row")),
    }
    Ok(())
}

// A line `key: value`.
fn read_key(draft: &mut Draft, key: &str, value: &str) -> Result<(), Flaw> {
    let alloc = draft.alloc;
    match key {
        "status" => draft.status = Some(number_of(value)?),
        "only status" => draft.only_status = Some(number_of(value)?),
        "report" => draft.add_report(value)?,
        "refused" | "or refused" => draft.refusals.push(refusal_of(alloc, value)?)?,
        "outcome" => draft.outcomes.push(outcome_of(alloc, value)?)?,
        "others" => draft.others = Some(others_of(value)?),
        "schedules" => draft.schedules = Some(schedules_of(value)?),
        _ => read_told(draft, key, value)?,
    }
    Ok(())
}

// A line of what a call is to tell and to keep, or of how it is made.
fn read_told(draft: &mut Draft, key: &str, value: &str) -> Result<(), Flaw> {
    let alloc = draft.alloc;
    match key {
        "out" => add_line(&mut draft.told.out, value)?,
        "err" => add_line(&mut draft.told.err, value)?,
        "entries" => draft.told.entries = Some(entries_of(alloc, value)?),
        "steps" => draft.told.steps = Some(number_of(value)?),
        "limit at" => draft.told.limit_at = Some(entry_of(alloc, value)?),
        _ => read_plan(alloc, &mut draft.plan, key, value)?,
    }
    Ok(())
}

// A line of how the top call is called.
fn read_plan(alloc: Global, plan: &mut Plan, key: &str, value: &str) -> Result<(), Flaw> {
    match key {
        "words" => plan.words = words_of(alloc, value)?,
        "source" => plan.source = Some(source_of(alloc, value)?),
        "out sink" => plan.out = sink_of(alloc, value)?,
        "err sink" => plan.err = sink_of(alloc, value)?,
        "clock" => plan.clock = clock_of(value)?,
        "each byte" => plan.set_cases(Cases::Bytes(byte_ranges(alloc, value)?))?,
        "each capabilities" => plan.set_cases(Cases::Capabilities(numbers_of(alloc, value)?))?,
        "times" => plan.times = times_of(value)?,
        _ => return Err(Flaw::Says("there is no such key")),
    }
    Ok(())
}

fn add_line(text: &mut Text, line: &str) -> Result<(), Flaw> {
    text.add(line.as_bytes())?;
    text.add(b"\n")?;
    Ok(())
}

fn times_of(value: &str) -> Result<u32, Flaw> {
    match number_of(value)? {
        0 => Err(Flaw::Says("a row is tried once or more often")),
        times => Ok(times),
    }
}

fn clock_of(value: &str) -> Result<ClockPlan, Flaw> {
    match value {
        "virtual" => Ok(ClockPlan::Virtual),
        "standing" => Ok(ClockPlan::Standing),
        _ => Err(Flaw::Says("a clock is `virtual` or `standing`")),
    }
}
