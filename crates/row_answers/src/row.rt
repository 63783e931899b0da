//! A row: one call of the top call, or one for each of its cases, and what it gives.

use crate::entry::EntryLine;
use crate::flaw::Flaw;
use crate::text::Text;
use std::alloc::{AllocError, Global};

/// Which calls a row makes.
#[derive(Drop)]
pub enum Cases {
    One,
    /// Once for each byte of these ranges, first and last.
    Bytes(Vec<(u8, u8)>),
    /// Once for each part of the input from its start, of one byte or more, but the whole.
    Parts,
    /// Once on each of these numbers of capabilities, which follow the words as `--caps N`.
    Capabilities(Vec<u8>),
}

/// A source that gives so many bytes a call and fails at these calls.
#[derive(Drop)]
pub struct SourcePlan {
    pub piece: usize,
    pub fails: Vec<u32>,
}

/// A sink with so much room, of which these puts fail after so many bytes.
#[derive(Drop)]
pub struct SinkPlan {
    pub room: usize,
    pub fails: Vec<(u32, u32)>,
}

#[derive(Clone, Copy)]
pub enum ClockPlan {
    Virtual,
    Standing,
}

/// Where a script is refused.
#[derive(Drop)]
pub enum Place {
    /// As it is told, or nothing where none is told.
    Told(String),
    /// At the end of the part.
    End,
    /// At the start of the word in which the part ends. This is no answer where it ends between words.
    Cut,
}

#[derive(Drop)]
pub struct Refusal {
    pub kind: String,
    pub place: Place,
}

/// What a call is to tell and to keep, beside its status. Entries, steps and an ending's entry that are not named are not
/// looked at.
#[derive(Drop)]
pub struct Told {
    pub out: Text,
    pub err: Text,
    pub entries: Option<Vec<EntryLine>>,
    pub steps: Option<u64>,
    pub limit_at: Option<EntryLine>,
}

/// How a run ends of itself.
#[derive(Clone, Copy)]
pub enum End {
    Done,
    Uncaught,
    Deadlock,
}

/// What runs come to.
#[derive(Drop)]
pub struct Outcome {
    pub end: End,
    pub out: Text,
    pub err: Text,
}

/// Whether there may be outcomes that are not listed.
#[derive(Clone, Copy)]
pub enum Others {
    None,
    /// There may be others for this cause.
    For(&'static str),
}

/// Whether every schedule ends.
#[derive(Clone, Copy)]
pub enum Schedules {
    End,
    MayRunForEver,
    NotKnown,
}

/// What a search is to list, beside the numbers of states and of entries.
#[derive(Drop)]
pub struct Listing {
    pub outcomes: Vec<Outcome>,
    pub others: Others,
    pub schedules: Schedules,
}

/// What a row gives.
#[derive(Drop)]
pub enum Wanted {
    /// This status, and all of this.
    Told(u8, Told),
    /// One of these refusals, and nothing runs.
    Refused(Vec<Refusal>),
    /// The script is accepted: it runs, or is refused by name until it can.
    Accepted,
    /// This status, whatever is told.
    Status(u8),
    /// These outcomes, and for each of them a run that comes to it.
    Listed(Listing),
}

/// How the top call is called.
#[derive(Drop)]
pub struct Plan {
    pub words: Vec<String>,
    pub input: Text,
    pub cases: Cases,
    /// How often each case is tried.
    pub times: u32,
    pub source: Option<SourcePlan>,
    pub out: SinkPlan,
    pub err: SinkPlan,
    pub clock: ClockPlan,
}

#[derive(Drop)]
pub struct Row {
    pub name: String,
    /// Whether what it shows can't run yet.
    pub later: bool,
    pub plan: Plan,
    pub wanted: Wanted,
    /// Lines of the report over its history, where that is written and verified.
    pub report: Option<Text>,
}

impl Told {
    /// Nothing, of which nothing is named.
    pub fn new(alloc: Global) -> Told {
        Told {
            out: Text::new(alloc),
            err: Text::new(alloc),
            entries: None,
            steps: None,
            limit_at: None,
        }
    }

    /// Whether nothing was said of it.
    pub fn is_silent(&self) -> bool {
        self.out.is_empty()
            && self.err.is_empty()
            && self.entries.is_none()
            && self.steps.is_none()
            && self.limit_at.is_none()
    }
}

impl End {
    pub fn word(self) -> &'static str {
        match self {
            End::Done => "done",
            End::Uncaught => "uncaught",
            End::Deadlock => "deadlock",
        }
    }
}

impl Schedules {
    /// How a listing says it.
    pub fn sentence(self) -> &'static str {
        match self {
            Schedules::End => "every schedule ends",
            Schedules::MayRunForEver => "a schedule may run for ever",
            Schedules::NotKnown => "whether every schedule ends is not known",
        }
    }
}

impl Listing {
    /// The status of the search.
    pub fn status(&self) -> u8 {
        match self.others {
            Others::None => 0,
            Others::For(_) => 11,
        }
    }
}

impl Plan {
    /// `run` on no input, as most rows have it.
    pub fn new(alloc: Global) -> Result<Plan, AllocError> {
        let mut words = Vec::new(alloc);
        words.push(String::from_str(alloc, "run")?)?;
        Ok(Plan {
            words,
            input: Text::new(alloc),
            cases: Cases::One,
            times: 1,
            source: None,
            out: SinkPlan::ample(alloc),
            err: SinkPlan::ample(alloc),
            clock: ClockPlan::Virtual,
        })
    }

    /// Sets which calls the row makes, which one line says.
    pub fn set_cases(&mut self, cases: Cases) -> Result<(), Flaw> {
        match self.cases {
            Cases::One => {
                self.cases = cases;
                Ok(())
            }
            _ => Err(Flaw::Says("a row has one line that begins with `each`")),
        }
    }
}

impl SinkPlan {
    /// Room for what most rows print, and no fault.
    pub fn ample(alloc: Global) -> SinkPlan {
        SinkPlan {
            room: 10_000,
            fails: Vec::new(alloc),
        }
    }
}
