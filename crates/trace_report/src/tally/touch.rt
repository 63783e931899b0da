ghost use Rattle.std.specs.Prelude.{◌≡◌};
ghost use Rattle.trace_report.specs.tally.Touching.{cell_of, serves as serves_by, waits_there};

/// What an operation has to do with a cell.
#[derive(Clone, Copy, Debug, PartialEq, Eq)]
pub enum Touch {
    /// Nothing, or it makes one.
    Nothing,
    Takes(u32),
    Reads(u32),
    Puts(u32),
    TriesToTake(u32),
    TriesToPut(u32),
}

impl Touch {
    /// The cell.
    pub fn cell(self) -> Option<u32>
        ensures { result ≡ cell_of self }
    {
        match self {
            Touch::Nothing => None,
            Touch::Takes(m) => Some(m),
            Touch::Reads(m) => Some(m),
            Touch::Puts(m) => Some(m),
            Touch::TriesToTake(m) => Some(m),
            Touch::TriesToPut(m) => Some(m),
        }
    }

    /// Whether the thread begins to wait, by whether the cell was full.
    pub fn waits(self, full: bool) -> bool
        ensures { result ≡ waits_there self full }
    {
        match self {
            Touch::Takes(_) => !full,
            Touch::Reads(_) => !full,
            Touch::Puts(_) => full,
            Touch::Nothing => false,
            Touch::TriesToTake(_) => false,
            Touch::TriesToPut(_) => false,
        }
    }

    /// Whether a value comes out, by whether the cell was full and is full now.
    pub fn serves(self, full: bool, now: bool) -> bool
        ensures { result ≡ serves_by self full now }
    {
        match self {
            Touch::Takes(_) => full,
            Touch::TriesToTake(_) => full,
            Touch::Puts(_) => !full && !now,
            Touch::TriesToPut(_) => !full && !now,
            Touch::Nothing => false,
            Touch::Reads(_) => false,
        }
    }
}
