//! The rule of an inbox, and what its steps tell.
ghost use Rattle.conc_hands.specs.queues.QueueRule.{IsRuled, puts_one, takes_one, IfEmpty, untold};

use crate::queues::view::QueueView;
use crossbeam_queue::protocol::{Lesson, Outcome, Protocol};
use hs_rules::Ticketed;

pub struct SlicesRule;

impl<S: Ticketed> Protocol<S, QueueView> for SlicesRule {
    ghost holds = { IsRuled S.number S.belongs };

    ghost first = { untold };
}

/// Puts a slice in.
pub struct PutOne;

impl<S: Ticketed> Outcome<S, QueueView> for PutOne {
    ghost then = { puts_one S.number };
}

/// Takes a slice out.
pub struct TakeOne;

impl<S: Ticketed> Outcome<S, QueueView> for TakeOne {
    ghost then = { takes_one S.number S.belongs };
}

impl<S: Ticketed> Lesson<S, QueueView> for TakeOne {
    ghost fact = { IfEmpty S.number S.belongs };
}
