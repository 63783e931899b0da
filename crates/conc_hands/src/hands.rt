use crate::flags::Flags;
use crate::queues::{Door, Inbox};
use hs_rules::Ticketed;

/// What all capabilities share.
#[derive(Drop)]
pub struct Hands<J: Ticketed, S: Ticketed> {
    /// The doors of the deques, by number of the hand.
    pub(crate) doors: Vec<Door<J>>,
    pub(crate) inbox: Inbox<S>,
    pub(crate) flags: Flags,
}
