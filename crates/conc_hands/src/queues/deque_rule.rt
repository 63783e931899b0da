//! The rule of a deque, and what its steps tell.
ghost use Rattle.conc_hands.specs.queues.QueueRule.{IsRuled, puts, takes, MetEmpty, untold, spent};

use crate::queues::view::QueueView;
use crossbeam_deque::protocol::{Outcome, Protocol};
use hs_rules::Ticketed;

pub struct JobsRule;

impl<J: Ticketed> Protocol<J, QueueView> for JobsRule {
    ghost holds = { IsRuled J.number J.belongs };

    ghost first = { untold };

    ghost guest = { spent };
}

/// Puts jobs in.
pub struct Put;

impl<J: Ticketed> Outcome<J, QueueView> for Put {
    ghost then = { puts J.number };
}

/// Takes jobs out.
pub struct Take;

impl<J: Ticketed> Outcome<J, QueueView> for Take {
    ghost then = { takes J.number J.belongs };

    ghost empty = { MetEmpty J.number J.belongs };
}
