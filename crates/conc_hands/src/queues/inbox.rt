//! The inbox, and what a thread uses it with.
use crate::queues::inbox_rule::SlicesRule;
use crate::queues::view::QueueView;
use crossbeam_queue::{RuledSegQueue, SegPass};
use hs_rules::Ticketed;

/// A queue that every thread puts into and takes from.
pub struct Inbox<S: Ticketed> {
    pub(crate) queue: RuledSegQueue<S, QueueView, SlicesRule>,
}

/// What a thread puts and takes with. It has no bytes.
#[derive(Drop)]
pub struct InboxPass<S: Ticketed> {
    pub(crate) pass: SegPass<S, QueueView>,
}

impl<S: Ticketed + Drop> Drop for Inbox<S> {
    fn drop(self) {
        let Inbox { queue } = self;
        queue.destroy();
    }
}
