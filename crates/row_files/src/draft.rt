//! A row while its lines are read.

use row_answers::{
    Flaw, Listing, Others, Outcome, Plan, Refusal, Row, Schedules, Text, Told, Wanted,
};
use std::alloc::{AllocError, Global};

/// What the lines of a row have said so far.
#[derive(Drop)]
pub struct Draft {
    pub alloc: Global,
    pub name: String,
    pub later: bool,
    pub plan: Plan,
    pub told: Told,
    pub status: Option<u8>,
    pub only_status: Option<u8>,
    pub refusals: Vec<Refusal>,
    pub accepted: bool,
    pub outcomes: Vec<Outcome>,
    pub others: Option<Others>,
    pub schedules: Option<Schedules>,
    pub report: Option<Text>,
}

impl Draft {
    /// A row of which only the name is known.
    pub fn new(alloc: Global, name: &str) -> Result<Draft, AllocError> {
        Ok(Draft {
            alloc,
            name: String::from_str(alloc, name)?,
            later: false,
            plan: Plan::new(alloc)?,
            told: Told::new(alloc),
            status: None,
            only_status: None,
            refusals: Vec::new(alloc),
            accepted: false,
            outcomes: Vec::new(alloc),
            others: None,
            schedules: None,
            report: None,
        })
    }

    /// The row, where its lines say what it gives in one way.
    pub fn finish(self) -> Result<Row, Flaw> {
        let way = self.way()?;
        let Draft {
            alloc: _,
            name,
            later,
            plan,
            told,
            status: _,
            only_status: _,
            refusals,
            accepted: _,
            outcomes,
            others: _,
            schedules: _,
            report,
        } = self;
        let wanted = match way {
            Way::Told(status) => Wanted::Told(status, told),
            Way::Status(status) => Wanted::Status(status),
            Way::Accepted => Wanted::Accepted,
            Way::Refused => Wanted::Refused(refusals),
            Way::Listed(others, schedules) => Wanted::Listed(Listing {
                outcomes,
                others,
                schedules,
            }),
        };
        Ok(Row {
            name,
            later,
            plan,
            wanted,
            report,
        })
    }

    /// Adds a line of the report over its history.
    pub fn add_report(&mut self, line: &str) -> Result<(), Flaw> {
        let mut report = match self.report.take() {
            Some(report) => report,
            None => Text::new(self.alloc),
        };
        report.add(line.as_bytes())?;
        report.add(b"\n")?;
        self.report = Some(report);
        Ok(())
    }

    // The one way in which the lines say what the row gives.
    fn way(&self) -> Result<Way, Flaw> {
        let (silent, unrefused) = (self.told.is_silent(), self.refusals.is_empty());
        match (self.status, self.only_status, self.accepted, self.listed()?) {
            (Some(status), None, false, None) if unrefused => Ok(Way::Told(status)),
            (None, Some(status), false, None) if silent && unrefused => Ok(Way::Status(status)),
            (None, None, true, None) if silent && unrefused => Ok(Way::Accepted),
            (None, None, false, None) if silent && !unrefused => Ok(Way::Refused),
            (None, None, false, Some(way)) if silent && unrefused => Ok(way),
            _ => Err(Flaw::Says(
                "the row above says what it gives in no way or in two: by `status` and what is told, by `refused`, by `accepted`, by `only status` or by `others` and `schedules`",
            )),
        }
    }

    // The list of outcomes, where the lines say one.
    fn listed(&self) -> Result<Option<Way>, Flaw> {
        match (self.others, self.schedules) {
            (Some(others), Some(schedules)) if self.report.is_none() => {
                Ok(Some(Way::Listed(others, schedules)))
            }
            (None, None) if self.outcomes.is_empty() => Ok(None),
            _ => Err(Flaw::Says(
                "the row above lists outcomes, and so it says `others` and `schedules`, and not `written` or `report`",
            )),
        }
    }
}

// In which of five ways a row says what it gives.
#[derive(Clone, Copy)]
enum Way {
    Told(u8),
    Status(u8),
    Accepted,
    Refused,
    Listed(Others, Schedules),
}
