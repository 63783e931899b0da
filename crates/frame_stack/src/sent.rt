//! Jobs, slices and stacks may be handed to other threads. A crate that does so cites `job_send`, `slice_send` or `stack_send`
//! of `proofs/Sends`: the search alone gives up at the twenty forms of `Operation`.

use crate::job::Job;
use crate::sliced::Slice;
use crate::stack::Stack;

fn is_sendable<T: Send>(_value: &T) {}

/// What the desk and the hands ask for.
pub(crate) fn are_sendable(job: &Job, slice: &Slice, stack: &Stack) {
    is_sendable(job);
    is_sendable(slice);
    is_sendable(stack);
}
