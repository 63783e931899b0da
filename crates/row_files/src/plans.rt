//! What the values of a row's keys say.

use row_answers::{
    EntryLine, Flaw, Letter, Place, Refusal, SinkPlan, SourcePlan, hex_digit, letters_of,
};
use std::alloc::Global;
use std::str::FromStr;

pub fn number_of<N: FromStr>(text: &str) -> Result<N, Flaw>
where
    N::Err: Drop,
{
    match text.parse::<N>() {
        Ok(number) => Ok(number),
        Err(_) => Err(Flaw::Says("a number is wanted here, and it has to fit")),
    }
}

const NO_ENTRY: Flaw = Flaw::Says("an entry is `L T K`, `O T`, `R T`, `W T`, `F T`, `T AT` or `S`");

// No calls that fail, no puts that fail.
const NONE: &[&str] = &[];

fn parts_of(alloc: Global, text: &str) -> Result<Vec<&str>, Flaw> {
    Ok(text.split_whitespace().collect(alloc)?)
}

/// Words with blanks between them; one that has a blank stands in quotes.
pub fn words_of(alloc: Global, value: &str) -> Result<Vec<String>, Flaw> {
    if value.starts_with("\"") {
        return only(alloc, quoted_word(alloc, value)?);
    }
    let mut words = Vec::new(alloc);
    for word in value.split_whitespace() {
        words.push(String::from_str(alloc, word)?)?;
    }
    Ok(words)
}

fn only(alloc: Global, word: String) -> Result<Vec<String>, Flaw> {
    let mut words = Vec::new(alloc);
    words.push(word)?;
    Ok(words)
}

// A word in quotes, of ASCII alone.
fn quoted_word(alloc: Global, value: &str) -> Result<String, Flaw> {
    let mut word = String::new(alloc);
    for letter in &letters_of(alloc, value)? {
        match letter {
            Letter::Byte(byte) if byte.is_ascii() => word.push(char::from(*byte))?,
            _ => return Err(Flaw::Says("a word in quotes has ASCII alone")),
        }
    }
    Ok(word)
}

// The number of `WORD N` or `WORD N fails ..`, and what follows `fails`.
fn size_and_fails<'a, 'b>(parts: &'a [&'b str], word: &str) -> Option<(&'b str, &'a [&'b str])> {
    match parts {
        [first, size] if *first == word => Some((*size, NONE)),
        [first, size, fails, rest @ ..] if *first == word && *fails == "fails" => {
            Some((*size, rest))
        }
        _ => None,
    }
}

/// `piece 8 fails 2 5`
pub fn source_of(alloc: Global, value: &str) -> Result<SourcePlan, Flaw> {
    let parts = parts_of(alloc, value)?;
    let Some((piece, calls)) = size_and_fails(&parts, "piece") else {
        return Err(Flaw::Says("a source is `piece N` or `piece N fails CALL ..`"));
    };
    Ok(SourcePlan {
        piece: piece_of(piece)?,
        fails: failing_calls(alloc, calls)?,
    })
}

fn piece_of(text: &str) -> Result<usize, Flaw> {
    match number_of(text)? {
        0 => Err(Flaw::Says("a piece has a byte or more")),
        piece => Ok(piece),
    }
}

fn failing_calls(alloc: Global, calls: &[&str]) -> Result<Vec<u32>, Flaw> {
    let mut fails = Vec::new(alloc);
    for call in calls {
        fails.push(number_of(call)?)?;
    }
    Ok(fails)
}

/// `room 100 fails 2:1 3:0`
pub fn sink_of(alloc: Global, value: &str) -> Result<SinkPlan, Flaw> {
    let parts = parts_of(alloc, value)?;
    let Some((room, puts)) = size_and_fails(&parts, "room") else {
        return Err(Flaw::Says("a sink is `room N` or `room N fails CALL:BYTES ..`"));
    };
    Ok(SinkPlan {
        room: number_of(room)?,
        fails: failing_puts(alloc, puts)?,
    })
}

fn failing_puts(alloc: Global, puts: &[&str]) -> Result<Vec<(u32, u32)>, Flaw> {
    let mut fails = Vec::new(alloc);
    for put in puts {
        fails.push(failing_put(put)?)?;
    }
    Ok(fails)
}

fn failing_put(put: &str) -> Result<(u32, u32), Flaw> {
    match put.split_once(':') {
        Some((call, told)) => Ok((number_of(call)?, number_of(told)?)),
        None => Err(Flaw::Says("a failing put is `CALL:BYTES`")),
    }
}

/// Entries with commas between them, or `none`.
pub fn entries_of(alloc: Global, value: &str) -> Result<Vec<EntryLine>, Flaw> {
    let mut entries = Vec::new(alloc);
    if value == "none" {
        return Ok(entries);
    }
    for text in value.split(',') {
        entries.push(entry_of(alloc, text)?)?;
    }
    Ok(entries)
}

pub fn entry_of(alloc: Global, text: &str) -> Result<EntryLine, Flaw> {
    let parts = parts_of(alloc, text)?;
    entry_in(parts.as_slice())
}

fn entry_in(parts: &[&str]) -> Result<EntryLine, Flaw> {
    match parts {
        ["S"] => Ok(EntryLine::Stranded),
        [kind, number] => entry_of_number(kind, number),
        ["L", t, k] => Ok(EntryLine::Local {
            t: number_of(t)?,
            k: number_of(k)?,
        }),
        _ => Err(NO_ENTRY),
    }
}

// An entry that names a thread or a time alone.
fn entry_of_number(kind: &str, number: &str) -> Result<EntryLine, Flaw> {
    match kind {
        "O" => Ok(EntryLine::Op {
            t: number_of(number)?,
        }),
        "R" => Ok(EntryLine::Receive {
            t: number_of(number)?,
        }),
        "W" => Ok(EntryLine::Wake {
            t: number_of(number)?,
        }),
        "F" => Ok(EntryLine::Finish {
            t: number_of(number)?,
        }),
        "T" => Ok(EntryLine::Tick {
            at: number_of(number)?,
        }),
        _ => Err(NO_ENTRY),
    }
}

/// `KIND`, `KIND at L:C`, `KIND at end` or `KIND at cut`
pub fn refusal_of(alloc: Global, value: &str) -> Result<Refusal, Flaw> {
    let (kind, place) = match value.split_once(" at ") {
        None => (value, Place::Told(String::new(alloc))),
        Some((kind, "end")) => (kind, Place::End),
        Some((kind, "cut")) => (kind, Place::Cut),
        Some((kind, place)) => (kind, Place::Told(String::from_str(alloc, place)?)),
    };
    Ok(Refusal {
        kind: String::from_str(alloc, kind)?,
        place,
    })
}

/// Ranges of bytes as `00-09 0B-21`, or single ones as `0A`.
pub fn byte_ranges(alloc: Global, value: &str) -> Result<Vec<(u8, u8)>, Flaw> {
    let mut ranges = Vec::new(alloc);
    for text in value.split_whitespace() {
        ranges.push(byte_range(text)?)?;
    }
    Ok(ranges)
}

fn byte_range(text: &str) -> Result<(u8, u8), Flaw> {
    match text.as_bytes() {
        [a, b] => {
            let byte = byte_of(*a, *b)?;
            Ok((byte, byte))
        }
        [a, b, b'-', c, d] => Ok((byte_of(*a, *b)?, byte_of(*c, *d)?)),
        _ => Err(Flaw::Says("bytes are `HH` or `HH-HH`, with blanks between")),
    }
}

/// Numbers with blanks between, at least one.
pub fn numbers_of(alloc: Global, value: &str) -> Result<Vec<u8>, Flaw> {
    let mut numbers = Vec::new(alloc);
    for text in value.split_whitespace() {
        numbers.push(number_of(text)?)?;
    }
    if numbers.is_empty() {
        return Err(Flaw::Says("a number is wanted here, and it has to fit"));
    }
    Ok(numbers)
}

fn byte_of(high: u8, low: u8) -> Result<u8, Flaw> {
    Ok(
        hex_digit(high)?
            .wrapping_mul(16)
            .wrapping_add(hex_digit(low)?),
    )
}
