use crate::flags::Pen;
use crate::queues::{Deque, DequePass, InboxPass};
use hs_rules::Ticketed;

/// What a hand has for jobs.
#[derive(Drop)]
pub struct JobsEnd<J: Ticketed> {
    /// Its place among the hands, from 0.
    pub(crate) number: u32,
    pub(crate) deque: Deque<J>,
    /// For each deque, by number. The one for its own deque is spent.
    pub(crate) passes: Vec<DequePass<J>>,
}

/// One capability's token.
#[derive(Drop)]
pub struct Hand<J: Ticketed, S: Ticketed> {
    pub(crate) jobs: JobsEnd<J>,
    pub(crate) post: InboxPass<S>,
    pub(crate) pen: Pen,
}
