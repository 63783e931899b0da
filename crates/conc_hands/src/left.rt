//! What was never taken.
ghost use Rattle.std.specs.Prelude.{◌≡◌, ◌<◌, ℕ, Some, slice_get};
ghost use Rattle.conc_hands.specs.queues.QueueRule.{SameTickets};
ghost use Rattle.conc_hands.specs.queues.Inboxes.{IsInboxPass, inbox_view};
ghost use Rattle.conc_hands.specs.Gathering.{ends_in, AreWhole, AreEmptyBelow};

use crate::hand::Hand;
use crate::queues::{Inbox, InboxPass};
use hs_rules::Ticketed;

/// Jobs that were pushed and never taken.
#[derive(Drop)]
pub struct JobsLeft<J: Ticketed, S: Ticketed> {
    pub(crate) hands: Vec<Hand<J, S>>,
    /// The deques of the hands below it are empty.
    pub(crate) at: usize,
    ghost whole: { AreWhole (ends_in hands.items) },
    ghost empty_below: { AreEmptyBelow at (ends_in hands.items) },
}

/// Slices that were handed in and never collected.
#[derive(Drop)]
pub struct SlicesLeft<S: Ticketed> {
    pub(crate) inbox: Inbox<S>,
    pub(crate) pass: InboxPass<S>,
    ghost of_inbox: { IsInboxPass inbox pass },
    ghost whole: { (inbox_view pass).shares ≡ 16 },
}

/// What is left at the end.
#[derive(Drop)]
pub struct Leftover<J: Ticketed, S: Ticketed> {
    pub jobs: JobsLeft<J, S>,
    pub slices: SlicesLeft<S>,
}
