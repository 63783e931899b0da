use hs_rules::Entry;
use number_moves::rests::EagerRules;
use number_states::{NumberState, Numbers};
use number_tables::Table;
use outcome_listing::{Cause, Final};

/// Where a state came from.
#[derive(Debug, Drop)]
pub struct Origin {
    /// The number of the state in which the entry was taken; 0 where there is none.
    pub parent: u32,
    /// None for the first state of all.
    pub entry: Option<Entry>,
    /// The eager local rules that were taken at once behind the entry.
    pub rest: Vec<Entry>,
    /// How many steps there are on the path to it: one for each entry, and for a Wake in real timing two, with its Tick.
    pub steps: u64,
}

/// What leads from one state to another.
#[derive(Clone, Copy, Debug)]
pub struct Move {
    pub from: u32,
    pub entry: Entry,
    pub to: u32,
    /// How many eager local rules were taken at once behind the entry.
    pub eager: u32,
}

/// Why there may be more than was found, and the path on which that was met.
#[derive(Debug, Drop)]
pub struct Gap {
    pub cause: Cause,
    pub by: Origin,
}

/// What a search has found.
#[derive(Drop)]
pub struct Found {
    pub numbers: Numbers,
    /// What is known of eager rules.
    pub rules: EagerRules,
    /// By number, no two with one key.
    pub states: Table<NumberState>,
    /// For each state where it came from.
    pub origins: Vec<Origin>,
    /// For each state how a run that comes to it has ended, if it has; where nobody has looked yet, by the main thread alone.
    pub kinds: Vec<Option<Final>>,
    /// In order of the state from which they lead.
    pub moves: Vec<Move>,
    /// The first gap that was met.
    pub gap: Option<Gap>,
}
