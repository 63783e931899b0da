//! Where columns and lanes stand.
ghost use Rattle.std.specs.Prelude.{◌≡◌, ◌+◌, ◌*◌, ◌-◌, ◌<◌, ◌^◌, nat_le, IsTrue, ◌↔◌};
ghost use Rattle.lane_picture.specs.Grids.{unit, left, middle, bar_left, bar_width, touch_x, answer_x, print_x, tick_x, width_for, row, at, span_width, is_wide, is_fine, rows, output_at};

use crate::film::Lane;

/// How wide a column is, by how many there are.
#[derive(Clone, Copy)]
pub(crate) enum Width {
    Wide,
    Middle,
    Fine,
}

/// The lanes of a picture, and its columns.
#[derive(Clone, Copy)]
pub(crate) struct Grid {
    pub width: Width,
    pub threads: u32,
    pub cells: u32,
}

impl Width {
    pub(crate) fn of(columns: u32) -> Width
        ensures { result ≡ width_for columns }
    {
        if columns <= 400 {
            Width::Wide
        } else if columns <= 2000 {
            Width::Middle
        } else {
            Width::Fine
        }
    }

    pub(crate) fn wide(self) -> bool
        ensures { result ≡ is_wide self }
    {
        match self {
            Width::Wide => true,
            Width::Middle => false,
            Width::Fine => false,
        }
    }

    pub(crate) fn fine(self) -> bool
        ensures { result ≡ is_fine self }
    {
        match self {
            Width::Wide => false,
            Width::Middle => false,
            Width::Fine => true,
        }
    }

    pub(crate) fn column(self) -> u64
        ensures { result ≡ unit self }
    {
        match self {
            Width::Wide => 24,
            Width::Middle => 8,
            Width::Fine => 2,
        }
    }

    /// Where a column begins.
    pub(crate) fn start(self, column: u32) -> u64
        ensures value { result ≡ left self column }
        ensures small { result < 2 ^ 40 }
    {
        let column = column as u64;
        match self {
            Width::Wide => 96 + 24 * column,
            Width::Middle => 96 + 8 * column,
            Width::Fine => 96 + 2 * column,
        }
    }

    pub(crate) fn mid(self, column: u32) -> u64
        ensures value { result ≡ middle self column }
        ensures small { result < 2 ^ 40 }
    {
        let column = column as u64;
        match self {
            Width::Wide => 108 + 24 * column,
            Width::Middle => 100 + 8 * column,
            Width::Fine => 97 + 2 * column,
        }
    }

    pub(crate) fn bar_start(self, column: u32) -> u64
        ensures { result ≡ bar_left self column }
    {
        let column = column as u64;
        match self {
            Width::Wide => 98 + 24 * column,
            Width::Middle => 97 + 8 * column,
            Width::Fine => 96 + 2 * column,
        }
    }

    pub(crate) fn bar(self) -> u64
        ensures { result ≡ bar_width self }
    {
        match self {
            Width::Wide => 20,
            Width::Middle => 6,
            Width::Fine => 2,
        }
    }

    pub(crate) fn touch(self, column: u32) -> u64
        ensures { result ≡ touch_x self column }
    {
        let column = column as u64;
        match self {
            Width::Wide => 105 + 24 * column,
            Width::Middle => 99 + 8 * column,
            Width::Fine => 96 + 2 * column,
        }
    }

    pub(crate) fn answer(self, column: u32) -> u64
        ensures { result ≡ answer_x self column }
    {
        let column = column as u64;
        match self {
            Width::Wide => 111 + 24 * column,
            Width::Middle => 101 + 8 * column,
            Width::Fine => 97 + 2 * column,
        }
    }

    pub(crate) fn print(self, column: u32) -> u64
        ensures { result ≡ print_x self column }
    {
        let column = column as u64;
        match self {
            Width::Wide => 104 + 24 * column,
            Width::Middle => 96 + 8 * column,
            Width::Fine => 93 + 2 * column,
        }
    }

    pub(crate) fn tick(self, column: u32) -> u64
        ensures { result ≡ tick_x self column }
    {
        let column = column as u64;
        match self {
            Width::Wide => 112 + 24 * column,
            Width::Middle => 104 + 8 * column,
            Width::Fine => 101 + 2 * column,
        }
    }

    /// How wide these columns are together.
    pub(crate) fn span(self, from: u32, to: u32) -> u64
        ensures { result ≡ span_width self from to }
    {
        let columns = to.saturating_sub(from) as u64;
        match self {
            Width::Wide => 24 * columns,
            Width::Middle => 8 * columns,
            Width::Fine => 2 * columns,
        }
    }
}

/// So far below the top of a row.
pub(crate) fn height(row: u64, below: u64) -> u64
    requires row { row < 2 ^ 34 }
    requires below { below < 2 ^ 10 }
    ensures { result ≡ at row below }
{
    84 + 56 * row + below
}

impl Grid {
    /// The row of a lane.
    pub(crate) fn row_of(self, lane: Lane) -> u64
        ensures value { result ≡ row self.threads lane }
        ensures small { result < 2 ^ 33 }
    {
        match lane {
            Lane::Thread(t) => t as u64,
            Lane::Cell(m) => self.threads as u64 + m as u64,
            Lane::Clock => 0,
        }
    }

    /// How many rows there are.
    pub(crate) fn rows(self) -> u64
        ensures value { result ≡ rows self }
        ensures small { result < 2 ^ 33 }
    {
        self.threads as u64 + self.cells as u64
    }

    /// So far below where what is printed begins.
    pub(crate) fn output(self, below: u64) -> u64
        requires { below < 2 ^ 8 }
        ensures { result ≡ output_at self below }
    {
        height(self.rows(), 8 + below)
    }
}
