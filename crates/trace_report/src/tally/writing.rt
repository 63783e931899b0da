//! The lines of a report.
ghost use Rattle.std.specs.Prelude.{◌≡◌, ◌+◌, ◌++◌, OnOk, codes, string_bytes};
ghost use Rattle.trace_report.specs.tally.Reporting.{thread_head, thread_rest, thread_line, cell_head, cell_rest, cell_line, cell_word, one_if};
ghost use Rattle.trace_report.specs.tally.Tallying.{thread_at, cell_at};
ghost use Rattle.trace_report.specs.tally.Words.{word_text};

use crate::tally::counts::{CellCounts, ThreadCounts};
use crate::tally::tally::{Tally, cell_counts, thread_counts};
use hs_base::NoMemory;
use std::alloc::AllocError;

/// How a thread stands.
#[derive(Clone, Copy, Debug, PartialEq, Eq)]
pub enum Word {
    /// It finished by a value.
    Done,
    /// It finished by an exception.
    Failed,
    /// It is blocked.
    Waiting,
    /// None of these.
    Running,
}

/// The word at the end of the line of a thread.
fn write_word(text: &mut String, word: Word) -> Result<(), AllocError>
    ensures { OnOk result (string_bytes text.new ≡ string_bytes text.old ++ (word_text word ++ codes "\n")) }
{
    match word {
        Word::Done => text.push_str("done\n"),
        Word::Failed => text.push_str("failed\n"),
        Word::Waiting => text.push_str("waiting\n"),
        Word::Running => text.push_str("running\n"),
    }
}

/// The word at the end of the line of a cell.
fn write_full(text: &mut String, full: bool) -> Result<(), AllocError>
    ensures { OnOk result (string_bytes text.new ≡ string_bytes text.old ++ (cell_word full ++ codes "\n")) }
{
    if full {
        text.push_str("full\n")
    } else {
        text.push_str("empty\n")
    }
}

fn write_thread_head(text: &mut String, t: usize, local: u32) -> Result<(), AllocError>
    ensures { OnOk result (string_bytes text.new ≡ string_bytes text.old ++ thread_head t local) }
{
    write!(text, "thread {t}: {local} local, ")
}

fn write_thread_rest(
    text: &mut String,
    ops: u32,
    waits: u32,
    receives: u32,
) -> Result<(), AllocError>
    ensures { OnOk result (string_bytes text.new ≡ string_bytes text.old ++ thread_rest ops waits receives) }
{
    write!(text, "{ops} ops, {waits} waits, {receives} receives, ")
}

fn write_cell_head(text: &mut String, m: usize, came: u64) -> Result<(), AllocError>
    ensures { OnOk result (string_bytes text.new ≡ string_bytes text.old ++ cell_head m came) }
{
    write!(text, "cell {m}: {came} in, ")
}

fn write_cell_rest(
    text: &mut String,
    out: u32,
    waits: u32,
    longest: usize,
) -> Result<(), AllocError>
    ensures { OnOk result (string_bytes text.new ≡ string_bytes text.old ++ cell_rest out waits longest) }
{
    write!(text, "{out} out, {waits} waits, {longest} longest, ")
}

/// So many values went in where so many came out.
fn came(out: u32, full: bool) -> u64
    ensures { result ≡ out + one_if full }
{
    if full { out as u64 + 1 } else { out as u64 }
}

impl Tally {
    /// Writes the line of a thread.
    pub fn write_thread(&self, text: &mut String, t: usize, word: Word) -> Result<(), NoMemory>
        ensures { OnOk result (string_bytes text.new ≡ string_bytes text.old ++ (let c = thread_at self.now.threads.items t in thread_line t c.local c.ops c.waits c.receives (word_text word))) }
    {
        let counts = thread_counts(&self.threads, t);
        write_thread_head(text, t, counts.local)?;
        write_thread_rest(text, counts.ops, counts.waits, counts.receives)?;
        write_word(text, word)?;
        Ok(())
    }

    /// Writes the line of a cell, which is full or isn't.
    pub fn write_cell(&self, text: &mut String, m: usize, full: bool) -> Result<(), NoMemory>
        ensures { OnOk result (string_bytes text.new ≡ string_bytes text.old ++ (let c = cell_at self.now.cells.items m in cell_line m (c.out + one_if full) c.out c.waits c.longest (cell_word full))) }
    {
        let counts = cell_counts(&self.cells, m);
        write_cell_head(text, m, came(counts.out, full))?;
        write_cell_rest(text, counts.out, counts.waits, counts.longest)?;
        write_full(text, full)?;
        Ok(())
    }
}
