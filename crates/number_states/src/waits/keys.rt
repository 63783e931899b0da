//! Keys of what waits.
ghost use Rattle.std.specs.Prelude.{◌≡◌, ◌++◌, OnOk};
ghost use Rattle.number_states.specs.waits.Places.{places, want_of};
ghost use Rattle.number_states.specs.waits.Keys.{content_key, want_key, line_key, cell_key, cells_key, flight_key, sleepers_key};

use crate::waits::cells::NumberCell;
use crate::waits::flight::Thrown;
use crate::waits::places::{Place, Want};
use crate::waits::sleepers::Asleep;
use hs_base::NoMemory;
use number_tables::value_keys::{put, put_wide};

/// Puts the key of the content of a cell at the end of a list.
fn put_content(content: Option<u32>, out: &mut Vec<u32>) -> Result<(), NoMemory>
    ensures { OnOk result (out.new.items ≡ out.old.items ++ content_key content) }
{
    match content {
        None => put(out, 0),
        Some(held) => {
            put(out, 1)?;
            put(out, held)
        }
    }
}

/// Puts the key of what a place waits for at the end of a list.
fn put_want(want: Want, out: &mut Vec<u32>) -> Result<(), NoMemory>
    ensures { OnOk result (out.new.items ≡ out.old.items ++ want_key (want_of want)) }
{
    match want {
        Want::Take => put(out, 1),
        Want::Read => put(out, 2),
        Want::Put(value) => {
            put(out, 3)?;
            put(out, value)
        }
    }
}

/// Puts the key of a line at the end of a list.
fn put_line(line: &[Place], out: &mut Vec<u32>) -> Result<(), NoMemory>
    ensures { OnOk result (out.new.items ≡ out.old.items ++ line_key (places line.now)) }
{
    for place in line {
        put_want(place.want, out)?;
        put(out, place.thread)?;
    }
    put(out, 0)
}

/// Puts the key of a cell at the end of a list.
pub fn put_cell(cell: &NumberCell, out: &mut Vec<u32>) -> Result<(), NoMemory>
    ensures { OnOk result (out.new.items ≡ out.old.items ++ cell_key cell.now) }
{
    put_content(cell.content, out)?;
    put_line(cell.line.as_slice(), out)
}

/// Puts the key of cells at the end of a list. Where memory runs out a part of it may stand there; so it is of each key.
pub fn put_cells(cells: &[NumberCell], out: &mut Vec<u32>) -> Result<(), NoMemory>
    ensures { OnOk result (out.new.items ≡ out.old.items ++ cells_key cells.now) }
{
    for cell in cells {
        put(out, 1)?;
        put_cell(cell, out)?;
    }
    put(out, 0)
}

/// Puts the key of exceptions in flight at the end of a list.
pub fn put_flight(list: &[Thrown], out: &mut Vec<u32>) -> Result<(), NoMemory>
    ensures { OnOk result (out.new.items ≡ out.old.items ++ flight_key list.now) }
{
    for thrown in list {
        put(out, 1)?;
        put(out, thrown.thrower)?;
        put(out, thrown.target)?;
        put(out, thrown.exn)?;
    }
    put(out, 0)
}

/// Puts the key of sleepers at the end of a list.
pub fn put_sleepers(list: &[Asleep], out: &mut Vec<u32>) -> Result<(), NoMemory>
    ensures { OnOk result (out.new.items ≡ out.old.items ++ sleepers_key list.now) }
{
    for sleeper in list {
        put(out, 1)?;
        put(out, sleeper.thread)?;
        put_wide(out, sleeper.due)?;
    }
    put(out, 0)
}
