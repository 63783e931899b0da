ghost use Rattle.std.specs.Prelude.{◌≡◌, ◌++◌, IfOk, OnOk, string_bytes};
ghost use Rattle.outcome_listing.specs.Listing.{count_words, cause_words, limit_word, extent_words, endless_words, end_word, first_line, second_line, whole_line, cut_line, text_lines, head_line, output_lines, errors_lines, block, blocks, listing_of};

use crate::explored::{Cause, Endless, Explored, Extent, Final, Outcome};
use hs_base::{NoMemory, Txt};
use hs_rules::LimitKind;
use std::alloc::{AllocError, Global};

/// The text of what a search found. The only error is want of memory.
pub fn listing(alloc: Global, explored: &Explored) -> Result<Txt, NoMemory>
    ensures { IfOk result (λ t. t ≡ listing_of explored.now) }
{
    let mut text = String::new(alloc);
    write_first(&mut text, explored)?;
    write_second(&mut text, explored)?;
    write_outcomes(&mut text, explored.outcomes.as_slice())?;
    Txt::from_string(text)
}

// ---- the first two lines

fn limit_text(kind: LimitKind) -> &'static str
    ensures { result.now ≡ limit_word kind }
{
    match kind {
        LimitKind::Threads => "threads",
        LimitKind::Cells => "cells",
        LimitKind::Frames => "frames",
        LimitKind::Output => "output",
    }
}

/// Adds the words of a cause. The only error is want of memory.
pub fn write_cause(text: &mut String, cause: Cause) -> Result<(), AllocError>
    ensures { OnOk result (string_bytes text.new ≡ string_bytes text.old ++ cause_words cause) }
{
    match cause {
        Cause::States => text.push_str("states"),
        Cause::Fuel => text.push_str("fuel"),
        Cause::Clock => text.push_str("clock"),
        Cause::Limit(kind) => {
            text.push_str("limit: ")?;
            text.push_str(limit_text(kind))
        }
    }
}

fn write_extent(text: &mut String, extent: &Extent) -> Result<(), AllocError>
    ensures { OnOk result (string_bytes text.new ≡ string_bytes text.old ++ extent_words extent.now) }
{
    match extent {
        Extent::All => text.push_str("there are no others"),
        Extent::NotAll(cause, _) => {
            text.push_str("there may be others: ")?;
            write_cause(text, *cause)
        }
    }
}

fn write_count(text: &mut String, count: usize) -> Result<(), AllocError>
    ensures { OnOk result (string_bytes text.new ≡ string_bytes text.old ++ count_words count) }
{
    if count == 1 {
        write!(text, "{count} outcome, and ")
    } else {
        write!(text, "{count} outcomes, and ")
    }
}

fn write_first(text: &mut String, explored: &Explored) -> Result<(), AllocError>
    ensures { OnOk result (string_bytes text.new ≡ string_bytes text.old ++ first_line explored.now) }
{
    write_count(text, explored.outcomes.len())?;
    write_extent(text, &explored.extent)?;
    text.push_str("\n")
}

fn endless_text(endless: &Endless) -> &'static str
    ensures { result.now ≡ endless_words endless.now }
{
    match endless {
        Endless::Never => "every schedule ends",
        Endless::Round { .. } => "a schedule may run for ever",
        Endless::Unknown => "whether every schedule ends is not known",
    }
}

fn write_second(text: &mut String, explored: &Explored) -> Result<(), AllocError>
    ensures { OnOk result (string_bytes text.new ≡ string_bytes text.old ++ second_line explored.now) }
{
    let states = explored.states;
    let ending = endless_text(&explored.endless);
    write!(text, "{states} states; {ending}\n")
}

// ---- the blocks

fn end_text(end: Final) -> &'static str
    ensures { result.now ≡ end_word end }
{
    match end {
        Final::Done => "done",
        Final::Uncaught => "uncaught",
        Final::Deadlock => "deadlock",
    }
}

fn write_head(
    text: &mut String,
    number: usize,
    end: Final,
    entries: usize,
) -> Result<(), AllocError>
    ensures { OnOk result (string_bytes text.new ≡ string_bytes text.old ++ head_line number end entries) }
{
    let end = end_text(end);
    write!(text, "{number}. {end}, after {entries} entries\n")
}

fn write_whole(text: &mut String, line: &str) -> Result<(), AllocError>
    ensures { OnOk result (string_bytes text.new ≡ string_bytes text.old ++ whole_line line.now) }
{
    write!(text, "     | {line}\n")
}

fn write_cut(text: &mut String, line: &str) -> Result<(), AllocError>
    ensures { OnOk result (string_bytes text.new ≡ string_bytes text.old ++ cut_line line.now) }
{
    write!(text, "     : {line}\n")
}

/// The lines of a text that the script printed.
fn write_lines(text: &mut String, printed: &str) -> Result<(), AllocError>
    ensures { OnOk result (string_bytes text.new ≡ string_bytes text.old ++ text_lines printed.now) }
{
    let mut rest = printed;
    while let Some((line, more)) = rest.split_once('\n') {
        write_whole(text, line)?;
        rest = more;
    }
    if rest.is_empty() {
        return Ok(());
    }
    write_cut(text, rest)
}

fn write_output(text: &mut String, output: &str) -> Result<(), AllocError>
    ensures { OnOk result (string_bytes text.new ≡ string_bytes text.old ++ output_lines output.now) }
{
    if output.is_empty() {
        return text.push_str("   output: none\n");
    }
    text.push_str("   output:\n")?;
    write_lines(text, output)
}

fn write_errors(text: &mut String, errors: &str) -> Result<(), AllocError>
    ensures { OnOk result (string_bytes text.new ≡ string_bytes text.old ++ errors_lines errors.now) }
{
    if errors.is_empty() {
        return Ok(());
    }
    text.push_str("   errors:\n")?;
    write_lines(text, errors)
}

fn write_block(text: &mut String, number: usize, outcome: &Outcome) -> Result<(), AllocError>
    ensures { OnOk result (string_bytes text.new ≡ string_bytes text.old ++ block number outcome.now) }
{
    write_head(text, number, outcome.end, outcome.witness.len())?;
    write_output(text, outcome.out.as_str())?;
    write_errors(text, outcome.err.as_str())
}

fn write_outcomes(text: &mut String, outcomes: &[Outcome]) -> Result<(), AllocError>
    ensures { OnOk result (string_bytes text.new ≡ string_bytes text.old ++ blocks outcomes.now) }
{
    if outcomes.is_empty() {
        return Ok(());
    }
    text.push_str("\n")?;
    for (place, outcome) in outcomes.iter().enumerate() {
        write_block(text, place + 1, outcome)?;
    }
    Ok(())
}
