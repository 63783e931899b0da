/// Whether some schedule goes on for ever.
#[derive(Debug, Drop)]
pub enum Ends {
    /// None does: there is a bound on all.
    Never,
    /// Some run comes to the state of this number, and the moves at these places lead from it back to it.
    Round { at: u32, moves: Vec<usize> },
}

/// What a walk knows of a state.
#[derive(Clone, Copy, Debug, PartialEq, Eq)]
pub enum Mark {
    New,
    /// It stands on the path, behind so many moves.
    Open(usize),
    /// All its moves lead to states that are done.
    Done,
}
