//! What the lines of a row say of the outcomes that are to be listed.

use row_answers::{End, Flaw, Others, Outcome, Schedules, Text, texts_of};
use std::alloc::Global;

const NO_OUTCOME: Flaw = Flaw::Says(
    "an outcome is `done`, `uncaught` or `deadlock`, then the output in quotes, and the errors in quotes where there are some",
);

/// Why there may be others than those that are listed.
const CAUSES: [&str; 7] = [
    "states",
    "fuel",
    "clock",
    "limit: threads",
    "limit: cells",
    "limit: frames",
    "limit: output",
];

/// `done "OUTPUT"` or `done "OUTPUT" "ERRORS"`
pub fn outcome_of(alloc: Global, value: &str) -> Result<Outcome, Flaw> {
    let Some((word, quoted)) = value.split_once(' ') else {
        return Err(NO_OUTCOME);
    };
    let end = end_of(word)?;
    let mut texts = texts_of(alloc, quoted)?.into_iter();
    match (texts.next(), texts.next(), texts.next()) {
        (Some(out), None, None) => Ok(Outcome {
            end,
            out,
            err: Text::new(alloc),
        }),
        (Some(out), Some(err), None) => Ok(Outcome { end, out, err }),
        _ => Err(NO_OUTCOME),
    }
}

fn end_of(word: &str) -> Result<End, Flaw> {
    match word {
        "done" => Ok(End::Done),
        "uncaught" => Ok(End::Uncaught),
        "deadlock" => Ok(End::Deadlock),
        _ => Err(NO_OUTCOME),
    }
}

/// `none`, or why there may be others.
pub fn others_of(value: &str) -> Result<Others, Flaw> {
    if value == "none" {
        return Ok(Others::None);
    }
    for cause in &CAUSES {
        if *cause == value {
            return Ok(Others::For(*cause));
        }
    }
    Err(Flaw::Says(
        "there are `none` others, or there may be for `states`, `fuel`, `clock` or `limit: KIND`",
    ))
}

/// `end`, `may run for ever` or `not known`
pub fn schedules_of(value: &str) -> Result<Schedules, Flaw> {
    match value {
        "end" => Ok(Schedules::End),
        "may run for ever" => Ok(Schedules::MayRunForEver),
        "not known" => Ok(Schedules::NotKnown),
        _ => Err(Flaw::Says("schedules `end`, `may run for ever` or are `not known`")),
    }
}
