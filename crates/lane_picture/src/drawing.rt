//! The marks of a film, spelled.
ghost use Rattle.std.specs.Prelude.{◌≡◌, ◌++◌, ◌<◌, ◌+◌, ◌^◌, OnOk, IfOk, codes, string_bytes, length, map, true};
ghost use Rattle.std.specs.List.{flat_map};
ghost use Rattle.lane_picture.specs.declared.film.Lane.TheVariants as a_lane;
ghost use Rattle.lane_picture.specs.Marks.{Happens, Answers, Strands, at_column, span_mark, lane_marks, event_marks, freed, freed_at, entry_marks, column_marks, all_below, waits_at, is_running, doing_in};
ghost use Rattle.lane_picture.specs.Marks.{lane_of as lane_by};
ghost use Rattle.lane_picture.specs.Shapes.{spelled, stranded_name};

use crate::film::{Doing, Entry, Event, Frame, Lane};
use crate::grid::Grid;
use crate::pieces::{write_group, write_group_end};
use crate::shapes::{class_of_look, runs, write_arrow, write_band, write_event_shape, write_hit};
use crate::spans::{Span, lane_spans};
use crate::words::{thread_doing, write_answers, write_happens, write_stays, write_strands};
use hs_base::NoMemory;
use std::alloc::{AllocError, Global};

fn write_span(
    alloc: Global,
    text: &mut String,
    grid: Grid,
    lane: Lane,
    span: Span,
) -> Result<(), AllocError>
    ensures { OnOk result (string_bytes text.new ≡ string_bytes text.old ++ spelled grid (span_mark lane span)) }
{
    let mut words = String::new(alloc);
    write_stays(&mut words, lane, span.from, span.look)?;
    write_group(text, class_of_look(span.look), words.as_str())?;
    write_band(text, grid, grid.row_of(lane), span.from, span.to, span.look)?;
    write_group_end(text)
}

/// The marks of a lane.
pub(crate) fn write_lane_marks(
    alloc: Global,
    text: &mut String,
    grid: Grid,
    film: &[Frame],
    lane: Lane,
) -> Result<(), NoMemory>
    requires { length film.now < 2 ^ 32 }
    ensures { OnOk result (string_bytes text.new ≡ string_bytes text.old ++ flat_map (spelled grid) (lane_marks film.now lane)) }
{
    let spans = lane_spans(alloc, film, lane)?;
    for span in &spans {
        write_span(alloc, text, grid, lane, *span)?;
    }
    Ok(())
}

fn lane_of(event: &Event) -> Option<Lane>
    ensures { result ≡ lane_by event.now }
{
    match event {
        Event::Nothing => None,
        Event::Steps(t, _) => Some(Lane::Thread(*t)),
        Event::Does(t, _) => Some(Lane::Thread(*t)),
        Event::Receives(t, _, _) => Some(Lane::Thread(*t)),
        Event::Wakes(t) => Some(Lane::Thread(*t)),
        Event::Returns(t) => Some(Lane::Thread(*t)),
        Event::Fails(t, _) => Some(Lane::Thread(*t)),
        Event::Ticks(_) => Some(Lane::Clock),
        Event::Strands => None,
    }
}

fn write_happened(
    alloc: Global,
    text: &mut String,
    grid: Grid,
    lane: Lane,
    entry: &Entry,
) -> Result<(), AllocError>
    requires { length entry.now.before.now.poses < 2 ^ 33 }
    ensures { OnOk result (string_bytes text.new ≡ string_bytes text.old ++ spelled grid (at_column lane entry.now.column (Happens entry.now.before.now entry.now.after.now))) }
{
    let _lane = lane;
    let mut words = String::new(alloc);
    write_happens(&mut words, entry.column, entry.before, entry.after)?;
    write_group(text, "entry", words.as_str())?;
    write_event_shape(alloc, text, grid, entry)?;
    write_group_end(text)
}

fn write_event_marks(
    alloc: Global,
    text: &mut String,
    grid: Grid,
    entry: &Entry,
) -> Result<(), AllocError>
    requires { length entry.now.before.now.poses < 2 ^ 33 }
    ensures { OnOk result (string_bytes text.new ≡ string_bytes text.old ++ flat_map (spelled grid) (event_marks entry.now.column (lane_by entry.now.after.now.event) entry.now.before.now entry.now.after.now)) }
{
    match lane_of(&entry.after.event) {
        Some(lane) => write_happened(alloc, text, grid, lane, entry),
        None => Ok(()),
    }
}

fn write_answered(
    alloc: Global,
    text: &mut String,
    grid: Grid,
    column: u32,
    cell: u32,
    thread: u32,
) -> Result<(), AllocError>
    ensures { OnOk result (string_bytes text.new ≡ string_bytes text.old ++ spelled grid (at_column (a_lane.Cell cell) column (Answers thread))) }
{
    let mut words = String::new(alloc);
    write_answers(&mut words, column, cell, thread)?;
    write_group(text, "entry", words.as_str())?;
    let x = grid.width.answer(column);
    write_arrow(
        text,
        "answer",
        x,
        grid.row_of(Lane::Cell(cell)),
        thread as u64,
    )?;
    write_group_end(text)
}

#[tactic(auto, unfolding(crate::specs::Shapes::stranded_name))]
fn name_of_stranded() -> &'static str
    ensures { result.now ≡ stranded_name }
{
    "BlockedIndefinitely"
}

fn write_stranded(
    alloc: Global,
    text: &mut String,
    grid: Grid,
    column: u32,
    thread: u32,
    cell: u32,
) -> Result<(), AllocError>
    ensures { OnOk result (string_bytes text.new ≡ string_bytes text.old ++ spelled grid (at_column (a_lane.Thread thread) column (Strands cell))) }
{
    let mut words = String::new(alloc);
    write_strands(&mut words, column, thread, cell)?;
    write_group(text, "entry", words.as_str())?;
    write_hit(
        text,
        grid,
        column,
        grid.row_of(Lane::Thread(thread)),
        name_of_stranded(),
    )?;
    write_group_end(text)
}

/// The cell at which it waits.
fn cell_of(doing: Doing) -> Option<u32>
    ensures { result ≡ waits_at doing }
{
    match doing {
        Doing::Running => None,
        Doing::Taking(m) => Some(m),
        Doing::Reading(m) => Some(m),
        Doing::Putting(m) => Some(m),
        Doing::Throwing(_) => None,
        Doing::Sleeping(_) => None,
    }
}

fn write_freed(
    alloc: Global,
    text: &mut String,
    grid: Grid,
    entry: &Entry,
    thread: u32,
    cell: u32,
) -> Result<(), AllocError>
    ensures { OnOk result (string_bytes text.new ≡ string_bytes text.old ++ flat_map (spelled grid) (freed entry.now.column entry.now.after.now.event thread cell)) }
{
    match &entry.after.event {
        Event::Does(_, _) => write_answered(alloc, text, grid, entry.column, cell, thread),
        Event::Strands => write_stranded(alloc, text, grid, entry.column, thread, cell),
        _ => Ok(()),
    }
}

fn write_freed_at(
    alloc: Global,
    text: &mut String,
    grid: Grid,
    entry: &Entry,
    thread: u32,
) -> Result<(), AllocError>
    ensures { OnOk result (string_bytes text.new ≡ string_bytes text.old ++ flat_map (spelled grid) (freed_at entry.now.column entry.now.before.now entry.now.after.now thread)) }
{
    let Some(cell) = cell_of(thread_doing(entry.before, thread)) else {
        return Ok(());
    };
    if runs(thread_doing(entry.after, thread)) {
        write_freed(alloc, text, grid, entry, thread, cell)
    } else {
        Ok(())
    }
}

/// The marks of an entry, in its column.
pub(crate) fn write_entry_marks(
    alloc: Global,
    text: &mut String,
    grid: Grid,
    entry: &Entry,
) -> Result<(), NoMemory>
    ensures { OnOk result (string_bytes text.new ≡ string_bytes text.old ++ flat_map (spelled grid) (entry_marks entry.now.column entry.now.before.now entry.now.after.now)) }
{
    let threads = u32::try_from(entry.before.poses.len()).map_err(|_| NoMemory)?;
    write_event_marks(alloc, text, grid, entry)?;
    for thread in 0..threads {
        write_freed_at(alloc, text, grid, entry, thread)?;
    }
    Ok(())
}
