//! The two ends of a deque.
ghost use Rattle.std.specs.Prelude.{◌≡◌, ◌<◌, ◌≤◌, ◌+◌};
ghost use Rattle.crossbeam_deque.specs.Handles.{worker_view, worker_flavor, worker_index, worker_capacity, stealer_flavor};

use crate::queues::deque_rule::JobsRule;
use crate::queues::view::QueueView;
use crossbeam_deque::{Pass, Stealer, Worker};
use hs_rules::Ticketed;
use std::alloc::Global;

/// The end of one thread, which pushes and pops. First in, first out.
#[derive(Drop)]
pub struct Deque<J: Ticketed> {
    pub(crate) worker: Worker<J, Global, QueueView, JobsRule>,
    /// How many pushes are sure to succeed.
    pub(crate) room: usize,
    ghost fifo: { worker_flavor worker ≡ 0 },
    ghost shared: { 0 < (worker_view worker).shares },
    ghost roomy: { 0 < room → worker_index worker + room ≤ worker_capacity worker },
}

/// Where the others take from it.
#[derive(Drop)]
pub struct Door<J: Ticketed> {
    pub(crate) stealer: Stealer<J, Global, QueueView, JobsRule>,
    ghost fifo: { stealer_flavor stealer ≡ 0 },
}

/// What another thread takes with. It has no bytes.
#[derive(Drop)]
pub struct DequePass<J: Ticketed> {
    pub(crate) pass: Pass<J, QueueView>,
}
