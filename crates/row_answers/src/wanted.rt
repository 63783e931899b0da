//! What a row wants beside what a call told.

use crate::flaw::Flaw;
use crate::listing::listing_difference;
use crate::row::{Listing, Place, Refusal, Told, Wanted};
use crate::showing::shown;
use crate::text::Text;
use std::alloc::{AllocError, Global};

/// What a call told, and its status.
#[derive(Drop)]
pub struct Answer {
    pub out: Vec<u8>,
    pub err: Vec<u8>,
    pub status: u8,
    /// Whether the script was accepted.
    pub accepted: bool,
}

/// One case of a row.
#[derive(Clone, Copy)]
pub enum Case<'a> {
    Whole,
    Byte(u8),
    /// A part of the input, and what follows it there.
    Part(&'a [u8], &'a [u8]),
}

impl Case<'_> {
    /// The byte that the case has, or another one where it has none.
    fn byte(&self) -> u8 {
        match self {
            Case::Byte(byte) => *byte,
            _ => 0,
        }
    }
}

/// The words that are not understood, a refused script, a read fault, a refused document, a search and what it lacks: nothing ran.
const IDLE: [u8; 8] = [2, 3, 7, 10, 11, 12, 13, 14];

impl Wanted {
    /// Whether the history has to be empty where a call has this status.
    pub fn is_idle(&self, status: u8) -> bool {
        IDLE.contains(&status) || matches!(self, Wanted::Listed(_))
    }
}

/// The first difference between what is wanted and what was told.
pub fn difference(
    alloc: Global,
    wanted: &Wanted,
    case: &Case<'_>,
    came: &Answer,
) -> Result<Option<String>, Flaw> {
    match wanted {
        Wanted::Told(status, told) => told_difference(alloc, *status, told, case, came),
        Wanted::Refused(refusals) => refusal_difference(alloc, refusals, case, came),
        Wanted::Accepted if came.accepted => Ok(None),
        Wanted::Accepted => {
            let err = shown(alloc, &came.err)?;
            Ok(Some(format!(in alloc; "wanted an accepted script, came {err}")?))
        }
        Wanted::Status(status) => status_difference(alloc, *status, came),
        Wanted::Listed(listing) => listed_difference(alloc, listing, case, came),
    }
}

fn status_difference(alloc: Global, status: u8, came: &Answer) -> Result<Option<String>, Flaw> {
    let got = came.status;
    if got == status {
        return Ok(None);
    }
    Ok(Some(format!(in alloc; "wanted status {status}, came {got}")?))
}

fn told_difference(
    alloc: Global,
    status: u8,
    told: &Told,
    case: &Case<'_>,
    came: &Answer,
) -> Result<Option<String>, Flaw> {
    if let Some(text) = text_difference(alloc, "out", &told.out, case, &came.out)? {
        return Ok(Some(text));
    }
    if let Some(text) = text_difference(alloc, "err", &told.err, case, &came.err)? {
        return Ok(Some(text));
    }
    status_difference(alloc, status, came)
}

fn text_difference(
    alloc: Global,
    sink: &str,
    wanted: &Text,
    case: &Case<'_>,
    came: &[u8],
) -> Result<Option<String>, Flaw> {
    let wanted = wanted.spell(case.byte())?;
    if wanted.as_slice() == came {
        return Ok(None);
    }
    let (wanted, came) = (shown(alloc, &wanted)?, shown(alloc, came)?);
    Ok(Some(format!(in alloc; "wanted {sink} {wanted}, came {came}")?))
}

fn listed_difference(
    alloc: Global,
    listing: &Listing,
    case: &Case<'_>,
    came: &Answer,
) -> Result<Option<String>, Flaw> {
    if let Some(text) = text_difference(alloc, "err", &Text::new(alloc), case, &came.err)? {
        return Ok(Some(text));
    }
    if let Some(text) = status_difference(alloc, listing.status(), came)? {
        return Ok(Some(text));
    }
    listing_difference(alloc, listing, case.byte(), &came.out)
}

fn refusal_difference(
    alloc: Global,
    refusals: &[Refusal],
    case: &Case<'_>,
    came: &Answer,
) -> Result<Option<String>, Flaw> {
    if came.status == 3 && came.out.is_empty() {
        for refusal in refusals {
            if is_told(alloc, refusal, case, &came.err)? {
                return Ok(None);
            }
        }
    }
    let (status, out, err) = (
        came.status,
        shown(alloc, &came.out)?,
        shown(alloc, &came.err)?,
    );
    let wanted = match refusals {
        [first, ..] => shown_refusal(alloc, first)?,
        [] => String::new(alloc),
    };
    Ok(Some(format!(in alloc;
        "wanted refused: {wanted}, came status {status}, out {out}, err {err}"
    )?))
}

fn shown_refusal(alloc: Global, refusal: &Refusal) -> Result<String, AllocError> {
    let kind = refusal.kind.as_str();
    match &refusal.place {
        Place::Told(place) if place.is_empty() => String::from_str(alloc, kind),
        Place::Told(place) => format!(in alloc; "{kind} at {place}"),
        Place::End => format!(in alloc; "{kind} at the end"),
        Place::Cut => format!(in alloc; "{kind} at the word that is cut"),
    }
}

// Whether this refusal is what was told.
fn is_told(alloc: Global, refusal: &Refusal, case: &Case<'_>, told: &[u8]) -> Result<bool, Flaw> {
    let place = match (&refusal.place, case) {
        (Place::Told(place), _) => place.clone()?,
        (Place::End, Case::Part(part, _)) => place_after(alloc, part)?,
        (Place::Cut, Case::Part(part, rest)) => match cut_word(part, rest) {
            Some(before) => place_after(alloc, before)?,
            None => return Ok(false),
        },
        _ => return Err(Flaw::Says("`at end` and `at cut` stand in rows of each part")),
    };
    let kind = refusal.kind.as_str();
    let line = if place.is_empty() {
        format!(in alloc; "refused: {kind}\n")?
    } else {
        let place = place.as_str();
        format!(in alloc; "refused: {kind} at {place}\n")?
    };
    Ok(line.as_bytes() == told)
}

// What stands before the word that a part of the input ends in, where it ends in one.
fn cut_word<'a>(part: &'a [u8], rest: &[u8]) -> Option<&'a [u8]> {
    let goes_on = rest.first().is_some_and(|byte| !is_blank(*byte));
    let begun = part.last().is_some_and(|byte| !is_blank(*byte));
    if !goes_on || !begun {
        return None;
    }
    let before = match part.iter().rposition(|byte| is_blank(*byte)) {
        Some(at) => at.saturating_add(1),
        None => 0,
    };
    part.get(..before)
}

fn is_blank(byte: u8) -> bool {
    matches!(byte, b' ' | b'\n')
}

// The line and the column after these bytes, of which each is a character.
fn place_after(alloc: Global, bytes: &[u8]) -> Result<String, AllocError> {
    let mut line = 1usize;
    let mut column = 1usize;
    for byte in bytes {
        if *byte == b'\n' {
            line = line.saturating_add(1);
            column = 1;
        } else {
            column = column.saturating_add(1);
        }
    }
    format!(in alloc; "{line}:{column}")
}
