//! The history that a call kept, beside what a row says of it.

use hs_rules::{Entry, History};
use row_answers::{Case, EntryLine, Flaw, Told, Wanted, difference, says};
use row_calls::Came;
use std::alloc::{AllocError, Global};

/// The first difference between what is wanted and what came.
pub fn first_difference(
    alloc: Global,
    wanted: &Wanted,
    case: &Case<'_>,
    came: &Came,
) -> Result<Option<String>, Flaw> {
    if wanted.is_idle(came.answer.status) && !came.history.is_empty() {
        return says(alloc, "nothing ran, but there is a history");
    }
    if let Some(text) = difference(alloc, wanted, case, &came.answer)? {
        return Ok(Some(text));
    }
    match wanted {
        Wanted::Told(_, told) => kept_difference(alloc, told, came),
        _ => Ok(None),
    }
}

// The history, its steps and the entry that an ending carries, where the row names them.
fn kept_difference(alloc: Global, told: &Told, came: &Came) -> Result<Option<String>, Flaw> {
    if let Some(entries) = &told.entries {
        if !is_history(&came.history, entries) {
            let history = shown_history(alloc, &came.history)?;
            return Ok(Some(format!(in alloc; "other entries were wanted, came {history}")?));
        }
    }
    if let Some(steps) = told.steps {
        let got = came.history.steps();
        if got != steps {
            return Ok(Some(format!(in alloc; "wanted {steps} steps, came {got}")?));
        }
    }
    if told.limit_at != came.limit_at.map(line_of) && told.limit_at.is_some() {
        return says(alloc, "the ending carries another entry");
    }
    Ok(None)
}

fn is_history(history: &History, entries: &[EntryLine]) -> bool {
    if history.len() != entries.len() {
        return false;
    }
    for (at, entry) in entries.iter().enumerate() {
        if history.at(at).map(line_of) != Some(*entry) {
            return false;
        }
    }
    true
}

// The first entries.
fn shown_history(alloc: Global, history: &History) -> Result<String, AllocError> {
    let mut text = String::new(alloc);
    for at in 0..history.len().min(20) {
        if at > 0 {
            text.push_str(", ")?;
        }
        if let Some(entry) = history.at(at) {
            let line = line_of(entry);
            text.push_str(format!(in alloc; "{line}")?.as_str())?;
        }
    }
    Ok(text)
}

// An entry as a row writes it.
fn line_of(entry: Entry) -> EntryLine {
    match entry {
        Entry::Local { t, k } => EntryLine::Local { t, k },
        Entry::Op { t } => EntryLine::Op { t },
        Entry::Receive { t } => EntryLine::Receive { t },
        Entry::Wake { t } => EntryLine::Wake { t },
        Entry::Finish { t } => EntryLine::Finish { t },
        Entry::Tick { at } => EntryLine::Tick { at },
        Entry::Stranded => EntryLine::Stranded,
    }
}
