//! The whole document.
ghost use Rattle.std.specs.Prelude.{◌≡◌, ◌++◌, ◌<◌, ◌^◌, ◌+◌, OnOk, IfOk, length, string_bytes};
ghost use Rattle.std.specs.List.{flat_map};
ghost use Rattle.lane_picture.specs.declared.film.Lane.TheVariants as a_lane;
ghost use Rattle.lane_picture.specs.Marks.{all_below, lane_marks, column_marks, marks_of};
ghost use Rattle.lane_picture.specs.Shapes.{spelled};
ghost use Rattle.lane_picture.specs.Drawing.{grid_of, at_least, full_width, full_height, opening_size, opening_box, opening, thread_tag, cell_tag, names, ending_words, ending_shape, legend_start, legend, picture};

use crate::drawing::{write_entry_marks, write_lane_marks};
use crate::film::{Ending, Entry, Frame, Lane};
use crate::frills::{LEGEND, STYLE};
use crate::grid::{Grid, Width, height};
use crate::pieces::{write_label, write_line, write_tag};
use hs_base::{NoMemory, Txt};
use std::alloc::{AllocError, Global};

fn write_opening_size(text: &mut String, width: u64, height: u64) -> Result<(), AllocError>
    ensures { OnOk result (string_bytes text.new ≡ string_bytes text.old ++ opening_size width height) }
{
    write!(
        text,
        "<svg xmlns='http://www.w3.org/2000/svg' width='{width}' height='{height}"
    )
}

fn write_opening_box(text: &mut String, width: u64, height: u64) -> Result<(), AllocError>
    ensures { OnOk result (string_bytes text.new ≡ string_bytes text.old ++ opening_box width height) }
{
    write!(text, "' viewBox='0 0 {width} {height}'>\n")
}

fn write_opening(text: &mut String, width: u64, height: u64) -> Result<(), AllocError>
    ensures { OnOk result (string_bytes text.new ≡ string_bytes text.old ++ opening width height) }
{
    write_opening_size(text, width, height)?;
    write_opening_box(text, width, height)
}

fn write_thread_names(text: &mut String, grid: Grid) -> Result<(), AllocError>
    ensures { OnOk result (string_bytes text.new ≡ string_bytes text.old ++ all_below (thread_tag grid) grid.threads) }
{
    for t in 0..grid.threads {
        let y = height(t as u64, 30);
        write_tag(text, "title", 8, y, "thread ", t as u64)?;
    }
    Ok(())
}

fn write_cell_names(text: &mut String, grid: Grid) -> Result<(), AllocError>
    ensures { OnOk result (string_bytes text.new ≡ string_bytes text.old ++ all_below (cell_tag grid) grid.cells) }
{
    for m in 0..grid.cells {
        let y = height(grid.threads as u64 + m as u64, 30);
        write_tag(text, "title", 8, y, "cell ", m as u64)?;
    }
    Ok(())
}

fn write_names(text: &mut String, grid: Grid) -> Result<(), AllocError>
    ensures { OnOk result (string_bytes text.new ≡ string_bytes text.old ++ names grid) }
{
    write_thread_names(text, grid)?;
    write_cell_names(text, grid)?;
    write_label(text, "title", 8, grid.output(12), "output")
}

fn words_of(end: Ending) -> &'static str
    ensures { result.now ≡ ending_words end }
{
    match end {
        Ending::Done => "main has finished by a value",
        Ending::Uncaught => "main has finished by an exception",
        Ending::Deadlock => "deadlock: nothing can go on",
        Ending::Open => "the history ends here",
    }
}

fn write_ending(text: &mut String, grid: Grid, columns: u32, end: Ending) -> Result<(), AllocError>
    ensures { OnOk result (string_bytes text.new ≡ string_bytes text.old ++ ending_shape grid columns end) }
{
    let x = grid.width.start(columns);
    write_line(text, "last", x + 100, 70, height(grid.rows(), 0))?;
    write_label(text, "title", x + 106, 82, words_of(end))
}

#[tactic(auto, unfolding(crate::specs::Drawing::legend_start))]
fn write_legend_start(text: &mut String, y: u64) -> Result<(), AllocError>
    ensures { OnOk result (string_bytes text.new ≡ string_bytes text.old ++ legend_start y) }
{
    write!(text, "<g transform='translate(8 {y})'>")
}

fn write_legend(text: &mut String, grid: Grid) -> Result<(), AllocError>
    ensures { OnOk result (string_bytes text.new ≡ string_bytes text.old ++ legend grid) }
{
    write_legend_start(text, grid.output(230))?;
    text.push_str(LEGEND)
}

fn width_of(grid: Grid, columns: u32) -> u64
    ensures { result ≡ full_width grid columns }
{
    let width = grid.width.start(columns) + 300;
    if width < 1200 { 1200 } else { width }
}

fn write_head(text: &mut String, grid: Grid, columns: u32) -> Result<(), AllocError>
    ensures { OnOk result (string_bytes text.new ≡ string_bytes text.old ++ (opening (full_width grid columns) (full_height grid) ++ STYLE.now)) }
{
    write_opening(text, width_of(grid, columns), grid.output(230) + 120)?;
    text.push_str(STYLE)
}

#[tactic(auto, using(crate::proofs::Joining::below_on))]
fn write_threads(
    alloc: Global,
    text: &mut String,
    grid: Grid,
    film: &[Frame],
) -> Result<(), NoMemory>
    requires { length film.now < 2 ^ 32 }
    ensures { OnOk result (string_bytes text.new ≡ string_bytes text.old ++ flat_map (spelled grid) (all_below (λ t. lane_marks film.now (a_lane.Thread t)) grid.threads)) }
{
    for t in 0..grid.threads {
        write_lane_marks(alloc, text, grid, film, Lane::Thread(t))?;
    }
    Ok(())
}

fn write_cells(alloc: Global, text: &mut String, grid: Grid, film: &[Frame]) -> Result<(), NoMemory>
    requires { length film.now < 2 ^ 32 }
    ensures { OnOk result (string_bytes text.new ≡ string_bytes text.old ++ flat_map (spelled grid) (all_below (λ m. lane_marks film.now (a_lane.Cell m)) grid.cells)) }
{
    for m in 0..grid.cells {
        write_lane_marks(alloc, text, grid, film, Lane::Cell(m))?;
    }
    Ok(())
}

fn write_column(
    alloc: Global,
    text: &mut String,
    grid: Grid,
    film: &[Frame],
    column: u32,
) -> Result<(), NoMemory>
    ensures { OnOk result (string_bytes text.new ≡ string_bytes text.old ++ flat_map (spelled grid) (column_marks film.now column)) }
{
    if column == 0 {
        return Ok(());
    }
    let before = film.get(column as usize - 1);
    let after = film.get(column as usize);
    match (before, after) {
        (Some(before), Some(after)) => {
            let entry = Entry {
                column,
                before,
                after,
            };
            write_entry_marks(alloc, text, grid, &entry)
        }
        (_, _) => Ok(()),
    }
}

fn write_columns(
    alloc: Global,
    text: &mut String,
    grid: Grid,
    film: &[Frame],
    columns: u32,
) -> Result<(), NoMemory>
    ensures { OnOk result (string_bytes text.new ≡ string_bytes text.old ++ flat_map (spelled grid) (all_below (column_marks film.now) columns)) }
{
    for column in 0..columns {
        write_column(alloc, text, grid, film, column)?;
    }
    Ok(())
}

#[tactic(auto, using(crate::proofs::Joining::three))]
fn write_marks(
    alloc: Global,
    text: &mut String,
    grid: Grid,
    film: &[Frame],
    columns: u32,
) -> Result<(), NoMemory>
    requires { columns ≡ length film.now }
    ensures { OnOk result (string_bytes text.new ≡ string_bytes text.old ++ flat_map (spelled grid) (marks_of film.now grid.threads grid.cells)) }
{
    write_threads(alloc, text, grid, film)?;
    write_cells(alloc, text, grid, film)?;
    write_columns(alloc, text, grid, film, columns)
}

/// Draws a film of so many threads and cells, which has come to this.
pub fn draw(
    alloc: Global,
    film: &[Frame],
    threads: u32,
    cells: u32,
    end: Ending,
) -> Result<Txt, NoMemory>
    ensures { IfOk result (λ txt. txt ≡ picture film.now threads cells end) }
{
    let columns = u32::try_from(film.len()).map_err(|_| NoMemory)?;
    let grid = Grid {
        width: Width::of(columns),
        threads,
        cells,
    };
    let mut text = String::new(alloc);
    write_head(&mut text, grid, columns)?;
    write_names(&mut text, grid)?;
    write_marks(alloc, &mut text, grid, film, columns)?;
    write_ending(&mut text, grid, columns, end)?;
    write_legend(&mut text, grid)?;
    Txt::from_string(text)
}
