//! The tickets of jobs and slices.

use crate::job::Job;
use crate::sliced::Slice;
use hs_rules::Ticketed;

impl Ticketed for Job {
    ghost number = { λ j. j.ticket };

    ghost belongs = { λ j. j.of.value };

    fn ticket(&self) -> u64 {
        self.ticket
    }
}

impl Ticketed for Slice {
    ghost number = { λ s. s.ticket };

    ghost belongs = { λ s. s.of.value };

    fn ticket(&self) -> u64 {
        self.ticket
    }
}
