ghost use Rattle.std.specs.Prelude.{◌≡◌, ℕ, [], ◌++◌, List, MatchOption};
ghost use Rattle.hs_rules.specs.declared.entry.Entry.{Entry};
ghost use Rattle.trace_text.specs.spelling.Traces.{BeginsNoLine, Fits, HasNoHeader, Reads, line_of};
ghost use Rattle.trace_text.specs.Fields.{ReadsNumbers};
ghost use Rattle.trace_text.specs.Reading.{Answers};

use crate::number::{number_at, small_number_at};
use hs_rules::Entry;
use std::marker::Model;

/// What the next line of a trace is.
#[derive(Clone, Copy, Debug, PartialEq, Eq)]
pub enum Line {
    /// The line of this entry.
    Entry(Entry),
    /// The line with this number, from 1 on, isn't as a trace has it.
    Spelling(usize),
    /// There are no more lines.
    End,
}

/// A trace that is read line by line. Contracts see how many lines were read and the bytes behind them.
#[derive(Debug, Drop)]
pub struct Lines<'a> {
    read: usize,
    rest: &'a [u8],
}

impl<'a> Model for Lines<'a> {
    ghost use Rattle.std.specs.Prelude.{◌+◌, ◌<◌, ◌^◌, length};
    ghost use Rattle.trace_text.specs.Reading.{Place, place_of};

    ghost Value = { Place };

    ghost view = { λ l. place_of l.read l.rest.now };

    ghost invariant = { λ l. l.read + length l.rest.now < 2 ^ 64 };
}

impl<'a> Lines<'a> {
    /// The lines behind the first line of a trace. `None` exactly where the text doesn't begin with that: its line 1 is
    /// misspelled.
    pub fn of(text: &'a [u8]) -> Option<Lines<'a>>
        ensures { MatchOption result (HasNoHeader text.entry.now) (λ lines. (lines.lines ≡ 1) × Reads text.entry.now [] lines.rest) }
    {
        let rest = text.strip_prefix(b"conc-trace 1\n")?;
        Some(Lines { read: 1, rest })
    }

    /// Reads the next line. Only a line that is an entry's is passed.
    pub fn next(&mut self) -> Line
        ensures { Answers self.old self.new result }
    {
        if self.rest.is_empty() {
            return Line::End;
        }
        match entry_at(self.rest) {
            Some((entry, rest)) => {
                self.read += 1;
                self.rest = rest;
                Line::Entry(entry)
            }
            None => Line::Spelling(self.read + 1),
        }
    }
}

/// The entry whose line stands at the begin of the bytes, and what stands behind that line.
fn entry_at(bytes: &[u8]) -> Option<(Entry, &[u8])>
    ensures { MatchOption result (BeginsNoLine bytes.now) (λ found. Fits found.0 × (bytes.now ≡ line_of found.0 ++ found.1.now)) }
{
    let (letter, fields) = bytes.split_first()?;
    let (entry, end) = numbers_at(*letter, fields)?;
    let (byte, rest) = end.split_first()?;
    if *byte != b'\n' {
        return None;
    }
    Some((entry, rest))
}

/// The entry with this letter whose numbers stand at the begin of the bytes, and what stands behind them.
fn numbers_at(letter: u8, bytes: &[u8]) -> Option<(Entry, &[u8])>
    ensures { MatchOption result
        ((e : Entry) (rest : List ℕ) → ¬ ReadsNumbers letter bytes.now e rest)
        (λ found. ReadsNumbers letter bytes.now found.0 found.1.now) }
{
    match letter {
        b'L' => {
            let (t, rest) = small_number_at(bytes)?;
            let (k, rest) = small_number_at(rest)?;
            Some((Entry::Local { t, k }, rest))
        }
        b'O' => {
            let (t, rest) = small_number_at(bytes)?;
            Some((Entry::Op { t }, rest))
        }
        b'R' => {
            let (t, rest) = small_number_at(bytes)?;
            Some((Entry::Receive { t }, rest))
        }
        b'W' => {
            let (t, rest) = small_number_at(bytes)?;
            Some((Entry::Wake { t }, rest))
        }
        b'F' => {
            let (t, rest) = small_number_at(bytes)?;
            Some((Entry::Finish { t }, rest))
        }
        b'T' => {
            let (at, rest) = number_at(bytes)?;
            Some((Entry::Tick { at }, rest))
        }
        b'S' => Some((Entry::Stranded, bytes)),
        _ => None,
    }
}
