//! What is drawn for each mark.
ghost use Rattle.std.specs.Prelude.{◌≡◌, ◌++◌, ◌<◌, ◌+◌, ◌^◌, OnOk, IfOk, codes, string_bytes, length};
ghost use Rattle.lane_picture.specs.Marks.{is_running, doing_in};
ghost use Rattle.lane_picture.specs.Words.{exn_name};
ghost use Rattle.lane_picture.specs.Pieces.{label};
ghost use Rattle.lane_picture.specs.Grids.{left, middle, at, row, span_width};
ghost use Rattle.lane_picture.specs.Shapes.{doing_class, mask_class, look_class, full_class, doing_tag, words_on, band, arrow, glyph, bar, hit_mark, hit, last, ticked, printed, taken, given, link, sign_of, event_shape};

use crate::film::{Deed, Doing, Entry, Event, Look};
use crate::grid::{Grid, height};
use crate::pieces::{
    write_disc, write_label, write_line, write_lozenge, write_rect, write_tag, write_turned,
    write_turned_number,
};
use crate::words::{thread_doing, write_exn};
use hs_base::{Exn, Mask};
use std::alloc::{AllocError, Global};

fn class_of_doing(doing: Doing) -> &'static str
    ensures { result.now ≡ doing_class doing }
{
    match doing {
        Doing::Running => "run",
        Doing::Taking(_) => "wait",
        Doing::Reading(_) => "wait",
        Doing::Putting(_) => "wait",
        Doing::Throwing(_) => "throw",
        Doing::Sleeping(_) => "sleep",
    }
}

fn class_of_mask(mask: Mask) -> &'static str
    ensures { result.now ≡ mask_class mask }
{
    match mask {
        Mask::Unmasked => "open",
        Mask::Masked => "masked",
        Mask::Uninterruptible => "hard",
    }
}

fn class_of_full(full: bool) -> &'static str
    ensures { result.now ≡ full_class full }
{
    if full { "full" } else { "empty" }
}

/// The class of a lane's mark.
pub(crate) fn class_of_look(look: Look) -> &'static str
    ensures { result.now ≡ look_class look }
{
    match look {
        Look::Thread(pose) => class_of_mask(pose.mask),
        Look::Cell(_) => "cell",
    }
}

fn write_doing_tag(text: &mut String, x: u64, y: u64, doing: Doing) -> Result<(), AllocError>
    ensures { OnOk result (string_bytes text.new ≡ string_bytes text.old ++ doing_tag x y doing) }
{
    match doing {
        Doing::Running => Ok(()),
        Doing::Taking(m) => write_tag(text, "on", x, y, "take ", m as u64),
        Doing::Reading(m) => write_tag(text, "on", x, y, "read ", m as u64),
        Doing::Putting(m) => write_tag(text, "on", x, y, "put ", m as u64),
        Doing::Throwing(t) => write_tag(text, "on", x, y, "thread ", t as u64),
        Doing::Sleeping(due) => write_tag(text, "on", x, y, "until ", due),
    }
}

fn write_words_on(
    text: &mut String,
    width: u64,
    x: u64,
    y: u64,
    doing: Doing,
) -> Result<(), AllocError>
    ensures { OnOk result (string_bytes text.new ≡ string_bytes text.old ++ words_on width x y doing) }
{
    if 96 <= width {
        write_doing_tag(text, x, y, doing)
    } else {
        Ok(())
    }
}

/// What a lane shows over some columns.
pub(crate) fn write_band(
    text: &mut String,
    grid: Grid,
    row: u64,
    from: u32,
    to: u32,
    look: Look,
) -> Result<(), AllocError>
    requires { row < 2 ^ 33 }
    ensures { OnOk result (string_bytes text.new ≡ string_bytes text.old ++ band grid row from to look) }
{
    let x = grid.width.start(from);
    let width = grid.width.span(from, to);
    match look {
        Look::Thread(pose) => {
            write_rect(
                text,
                class_of_doing(pose.doing),
                x,
                height(row, 14),
                width,
                24,
            )?;
            write_words_on(text, width, x + 28, height(row, 30), pose.doing)
        }
        Look::Cell(full) => write_rect(text, class_of_full(full), x, height(row, 18), width, 16),
    }
}

/// A line from one row to another.
pub(crate) fn write_arrow(
    text: &mut String,
    class: &str,
    x: u64,
    from: u64,
    to: u64,
) -> Result<(), AllocError>
    requires from { from < 2 ^ 33 }
    requires to { to < 2 ^ 33 }
    ensures { OnOk result (string_bytes text.new ≡ string_bytes text.old ++ arrow class.now x from to) }
{
    if from < to {
        write_line(text, class, x, height(from, 38), height(to, 14))
    } else {
        write_line(text, class, x, height(from, 14), height(to, 38))
    }
}

fn write_glyph(
    text: &mut String,
    grid: Grid,
    column: u32,
    row: u32,
    sign: &str,
) -> Result<(), AllocError>
    ensures { OnOk result (string_bytes text.new ≡ string_bytes text.old ++ glyph grid column row sign.now) }
{
    let row = row as u64;
    let width = grid.width;
    if width.wide() {
        write_disc(text, sign, width.mid(column), height(row, 26))
    } else {
        write_rect(
            text,
            "mark",
            width.start(column),
            height(row, 18),
            width.column(),
            16,
        )
    }
}

fn write_bar(
    text: &mut String,
    grid: Grid,
    column: u32,
    row: u32,
    steps: u32,
) -> Result<(), AllocError>
    ensures { OnOk result (string_bytes text.new ≡ string_bytes text.old ++ bar grid column row steps) }
{
    let row = row as u64;
    let width = grid.width;
    write_rect(
        text,
        "bar",
        width.bar_start(column),
        height(row, 23),
        width.bar(),
        6,
    )?;
    if width.wide() {
        let x = width.mid(column);
        write_tag(text, "count", x, height(row, 11), "", steps as u64)
    } else {
        Ok(())
    }
}

fn write_hit_mark(text: &mut String, grid: Grid, column: u32, row: u64) -> Result<(), AllocError>
    requires { row < 2 ^ 33 }
    ensures { OnOk result (string_bytes text.new ≡ string_bytes text.old ++ hit_mark grid column row) }
{
    let width = grid.width;
    if width.wide() {
        write_lozenge(text, width.mid(column), height(row, 14))
    } else {
        write_rect(
            text,
            "hit",
            width.start(column),
            height(row, 14),
            width.column(),
            24,
        )
    }
}

/// A thread is hit by an exception of this name.
pub(crate) fn write_hit(
    text: &mut String,
    grid: Grid,
    column: u32,
    row: u64,
    name: &str,
) -> Result<(), AllocError>
    requires { row < 2 ^ 33 }
    ensures { OnOk result (string_bytes text.new ≡ string_bytes text.old ++ hit grid column row name.now) }
{
    write_hit_mark(text, grid, column, row)?;
    if grid.width.fine() {
        Ok(())
    } else {
        let x = grid.width.mid(column) + 10;
        write_label(text, "name", x, height(row, 50), name)
    }
}

fn write_last(
    text: &mut String,
    grid: Grid,
    column: u32,
    row: u32,
    words: &str,
) -> Result<(), AllocError>
    ensures { OnOk result (string_bytes text.new ≡ string_bytes text.old ++ last grid column row words.now) }
{
    let row = row as u64;
    let x = grid.width.start(column);
    write_rect(text, "end", x, height(row, 14), 6, 24)?;
    write_label(text, "name", x + 10, height(row, 30), words)
}

fn write_printed(
    text: &mut String,
    grid: Grid,
    column: u32,
    row: u32,
    plain: &str,
) -> Result<(), AllocError>
    ensures { OnOk result (string_bytes text.new ≡ string_bytes text.old ++ printed grid column row plain.now) }
{
    let row = row as u64;
    let x = grid.width.mid(column);
    write_line(text, "out", x, height(row, 38), grid.output(0))?;
    if grid.width.fine() {
        Ok(())
    } else {
        let x = grid.width.print(column);
        write_turned(text, "90", x, grid.output(4), plain)
    }
}

fn write_taken(
    text: &mut String,
    grid: Grid,
    column: u32,
    t: u32,
    m: u32,
    goes: bool,
) -> Result<(), AllocError>
    ensures { OnOk result (string_bytes text.new ≡ string_bytes text.old ++ taken grid column t m goes) }
{
    let x = grid.width.touch(column);
    let cell = grid.threads as u64 + m as u64;
    if goes {
        write_arrow(text, "touch", x, cell, t as u64)
    } else {
        write_arrow(text, "ask", x, t as u64, cell)
    }
}

fn write_given(
    text: &mut String,
    grid: Grid,
    column: u32,
    t: u32,
    m: u32,
    goes: bool,
) -> Result<(), AllocError>
    ensures { OnOk result (string_bytes text.new ≡ string_bytes text.old ++ given grid column t m goes) }
{
    let x = grid.width.touch(column);
    let cell = grid.threads as u64 + m as u64;
    if goes {
        write_arrow(text, "touch", x, t as u64, cell)
    } else {
        write_arrow(text, "ask", x, t as u64, cell)
    }
}

fn write_fork(
    text: &mut String,
    grid: Grid,
    column: u32,
    t: u32,
    child: usize,
) -> Result<(), AllocError>
    requires { child < 2 ^ 33 }
    ensures { OnOk result (string_bytes text.new ≡ string_bytes text.old ++ arrow (codes "fork") (middle grid.width column) t child) }
{
    let x = grid.width.mid(column);
    write_arrow(text, "fork", x, t as u64, child as u64)
}

fn write_link(
    text: &mut String,
    grid: Grid,
    entry: &Entry,
    t: u32,
    goes: bool,
    deed: &Deed,
) -> Result<(), AllocError>
    requires { length entry.now.before.now.poses < 2 ^ 33 }
    ensures { OnOk result (string_bytes text.new ≡ string_bytes text.old ++ link grid entry.now.column t entry.now.before.now goes deed.now) }
{
    let column = entry.column;
    match deed {
        Deed::Prints(x) => write_printed(text, grid, column, t, x.as_str()),
        Deed::Reports(x) => write_printed(text, grid, column, t, x.as_str()),
        Deed::Takes(m) => write_taken(text, grid, column, t, *m, goes),
        Deed::Reads(m) => write_taken(text, grid, column, t, *m, goes),
        Deed::Puts(m) => write_given(text, grid, column, t, *m, goes),
        Deed::TriesToTake(m) => write_given(text, grid, column, t, *m, false),
        Deed::TriesToPut(m) => write_given(text, grid, column, t, *m, false),
        Deed::Forks => write_fork(text, grid, column, t, entry.before.poses.len()),
        Deed::MakesCell => Ok(()),
        Deed::Throws(_, _) => Ok(()),
        Deed::Delays => Ok(()),
        Deed::Acquires => Ok(()),
        Deed::Releases => Ok(()),
        Deed::Asks => Ok(()),
    }
}

fn sign(deed: &Deed) -> &'static str
    ensures { result.now ≡ sign_of deed.now }
{
    match deed {
        Deed::Prints(_) => "O",
        Deed::Reports(_) => "E",
        Deed::MakesCell => "N",
        Deed::Takes(_) => "T",
        Deed::Reads(_) => "R",
        Deed::Puts(_) => "P",
        Deed::TriesToTake(_) => "t",
        Deed::TriesToPut(_) => "p",
        Deed::Forks => "F",
        Deed::Throws(_, _) => "!",
        Deed::Delays => "D",
        Deed::Acquires => "A",
        Deed::Releases => "L",
        Deed::Asks => "?",
    }
}

pub(crate) fn runs(doing: Doing) -> bool
    ensures { result ≡ is_running doing }
{
    match doing {
        Doing::Running => true,
        _ => false,
    }
}

fn write_does(
    text: &mut String,
    grid: Grid,
    entry: &Entry,
    t: u32,
    deed: &Deed,
) -> Result<(), AllocError>
    requires { length entry.now.before.now.poses < 2 ^ 33 }
    ensures { OnOk result (string_bytes text.new ≡ string_bytes text.old ++ (link grid entry.now.column t entry.now.before.now (is_running (doing_in entry.now.after.now t)) deed.now ++ glyph grid entry.now.column t (sign_of deed.now))) }
{
    let goes = runs(thread_doing(entry.after, t));
    write_link(text, grid, entry, t, goes, deed)?;
    write_glyph(text, grid, entry.column, t, sign(deed))
}

fn name_of(alloc: Global, exn: &Exn) -> Result<String, AllocError>
    ensures { IfOk result (λ name. string_bytes name ≡ exn_name exn.now) }
{
    let mut name = String::new(alloc);
    write_exn(&mut name, exn)?;
    Ok(name)
}

fn write_receives(
    text: &mut String,
    grid: Grid,
    column: u32,
    t: u32,
    from: u32,
    name: &str,
) -> Result<(), AllocError>
    ensures { OnOk result (string_bytes text.new ≡ string_bytes text.old ++ (arrow (codes "kill") (middle grid.width column) from t ++ hit grid column t name.now)) }
{
    let x = grid.width.mid(column);
    write_arrow(text, "kill", x, from as u64, t as u64)?;
    write_hit(text, grid, column, t as u64, name)
}

fn write_ticks(text: &mut String, grid: Grid, column: u32, moment: u64) -> Result<(), AllocError>
    ensures { OnOk result (string_bytes text.new ≡ string_bytes text.old ++ ticked grid column moment) }
{
    let x = grid.width.mid(column);
    write_line(text, "tick", x, 70, height(grid.rows(), 0))?;
    if grid.width.fine() {
        Ok(())
    } else {
        write_turned_number(text, "-90", grid.width.tick(column), 66, moment)
    }
}

/// What the entry of a column does.
pub(crate) fn write_event_shape(
    alloc: Global,
    text: &mut String,
    grid: Grid,
    entry: &Entry,
) -> Result<(), AllocError>
    requires { length entry.now.before.now.poses < 2 ^ 33 }
    ensures { OnOk result (string_bytes text.new ≡ string_bytes text.old ++ event_shape grid entry.now.column entry.now.before.now entry.now.after.now entry.now.after.now.event) }
{
    let column = entry.column;
    match &entry.after.event {
        Event::Nothing => Ok(()),
        Event::Steps(t, k) => write_bar(text, grid, column, *t, *k),
        Event::Does(t, deed) => write_does(text, grid, entry, *t, deed),
        Event::Receives(t, from, exn) => {
            let name = name_of(alloc, exn)?;
            write_receives(text, grid, column, *t, *from, name.as_str())
        }
        Event::Wakes(t) => write_glyph(text, grid, column, *t, "U"),
        Event::Returns(t) => write_last(text, grid, column, *t, "value"),
        Event::Fails(t, exn) => {
            let name = name_of(alloc, exn)?;
            write_last(text, grid, column, *t, name.as_str())
        }
        Event::Ticks(moment) => write_ticks(text, grid, column, *moment),
        Event::Strands => Ok(()),
    }
}
