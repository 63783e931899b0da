//! Queues of things with tickets: deques that one thread pushes to and pops from while others take at the front, and an
//! inbox that every thread puts into and takes from.
//!
//! To a contract each end of a queue is a view: the code that all items belong to, its shares, and the tickets that it
//! has put in and taken out. The shares of all views of a queue add up to 16, so whoever has all of them knows that no
//! other view has put or taken anything.
//!
//! The promise is one rule for both kinds of queue: between any two steps, what the queue holds together with what the
//! views took is what they put in, each ticket as often, and every item belongs to the queue's code.
//!
//! In which order items come out is the queues' own promise and is not repeated here. Nothing is said of how long a call
//! that may wait does wait.

mod deque;
mod deque_calls;
mod deque_rule;
mod inbox;
mod inbox_calls;
mod inbox_rule;
mod rule;
mod view;

pub use deque::{Deque, DequePass, Door};
pub use inbox::{Inbox, InboxPass};
pub use view::QueueView;
