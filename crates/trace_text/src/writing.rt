ghost use Rattle.std.specs.Prelude.{◌≡◌, ◌++◌, IfOk, OnOk, codes, string_bytes};
ghost use Rattle.std.specs.Fmt.{decimal};
ghost use Rattle.trace_text.specs.spelling.Traces.{Fits, Spells, document_of, header, line_of};

use crate::document::SCRIPT_LINE;
use hs_base::{NoMemory, Txt};
use hs_rules::{Entry, History};
use itoa::Buffer;
use std::alloc::{AllocError, Global};

/// The trace that spells the history. The only error is want of memory.
pub fn write_trace(alloc: Global, history: &History) -> Result<Txt, NoMemory>
    ensures { IfOk result (λ text. Spells text history.now.list) }
{
    let mut text = String::new(alloc);
    write_header(&mut text)?;
    for place in 0..history.len() {
        if let Some(entry) = history.at(place) {
            write_line(&mut text, entry)?;
        }
    }
    Txt::from_string(text)
}

/// The document of a history and of the bytes of its script. The only error is want of memory.
pub fn write_document(alloc: Global, history: &History, script: &[u8]) -> Result<Vec<u8>, NoMemory>
    ensures { IfOk result (λ document. document.items ≡ document_of history.now.list script.now) }
{
    let trace = write_trace(alloc, history)?;
    let mut document = Vec::from_slice(alloc, trace.as_str().as_bytes())?;
    document.extend_from_slice(SCRIPT_LINE)?;
    document.extend_from_slice(script)?;
    Ok(document)
}

#[tactic(auto, unfolding(crate::specs::spelling::Traces::header))]
fn write_header(text: &mut String) -> Result<(), AllocError>
    ensures { OnOk result (string_bytes text.new ≡ string_bytes text.old ++ header) }
{
    text.push_str("conc-trace 1\n")
}

fn write_line(text: &mut String, entry: Entry) -> Result<(), AllocError>
    ensures line { OnOk result (string_bytes text.new ≡ string_bytes text.old ++ line_of entry) }
    ensures fits { Fits entry }
{
    match entry {
        Entry::Local { t, k } => write_two(text, t, k),
        Entry::Op { t } => write_one(text, "O ", u64::from(t)),
        Entry::Receive { t } => write_one(text, "R ", u64::from(t)),
        Entry::Wake { t } => write_one(text, "W ", u64::from(t)),
        Entry::Finish { t } => write_one(text, "F ", u64::from(t)),
        Entry::Tick { at } => write_one(text, "T ", at),
        Entry::Stranded => text.push_str("S\n"),
    }
}

/// A line with one number. That it isn't written by `write!`, which takes three times as long, is for the time of `trace`.
fn write_one(text: &mut String, letter: &str, number: u64) -> Result<(), AllocError>
    ensures { OnOk result (string_bytes text.new ≡ string_bytes text.old ++ (letter.now ++ decimal number ++ codes "\n")) }
{
    text.push_str(letter)?;
    text.push_str(Buffer::new().format(number))?;
    text.push_str("\n")
}

fn write_two(text: &mut String, t: u32, k: u32) -> Result<(), AllocError>
    ensures { OnOk result (string_bytes text.new ≡ string_bytes text.old ++ (codes "L " ++ decimal t ++ codes " " ++ decimal k ++ codes "\n")) }
{
    text.push_str("L ")?;
    text.push_str(Buffer::new().format(t))?;
    write_one(text, " ", u64::from(k))
}
