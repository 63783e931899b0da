//! What a thread has to do, for whoever asks of one.
ghost use Rattle.std.specs.Prelude.{◌≡◌, ◌↔◌, true, IsTrue, MatchBool};
ghost use Rattle.frame_stack.specs.Parts.{IsOp, Meets};
ghost use Rattle.thread_table.specs.Listing as lists;
ghost use Rattle.thread_table.specs.Kinds.{IsEnd, IsBare};

use crate::kinds::EntryKind;
use crate::listing::is_receptive;
use crate::thread::Thread;
use crate::threads::Threads;
use exn_flight::Flight;
use frame_stack::{Control, Stack};

fn is_op(control: &Control) -> bool
    ensures { IsTrue result ↔ IsOp control.now }
{
    match control {
        Control::Doing(_, _) => false,
        Control::Ret(_) => false,
        Control::Throw(_) => false,
        Control::Op(_) => true,
    }
}

fn is_end(control: &Control) -> bool
    ensures { IsTrue result ↔ IsEnd control.now }
{
    match control {
        Control::Doing(_, _) => false,
        Control::Ret(_) => true,
        Control::Throw(_) => true,
        Control::Op(_) => false,
    }
}

/// Whether the whole of a stack is a value or an exception.
fn is_bare(stack: &Stack) -> bool
    ensures { IsTrue result ↔ IsBare stack.now }
{
    if !is_end(stack.control()) {
        return false;
    }
    stack.frames() == 0
}

/// Whether a value or an exception stands in a frame.
fn meets(stack: &Stack) -> bool
    ensures { IsTrue result ↔ Meets stack.now }
{
    if !is_end(stack.control()) {
        return false;
    }
    stack.frames() != 0
}

/// Whether a thread that hasn't finished can receive an exception that is in flight to it.
fn hears(thread: &Thread, flight: &Flight, t: u32) -> bool
    ensures { IsTrue result ↔ ((lists.is_receptive thread.now ≡ true) × (lists.is_hit t flight.now.list ≡ true)) }
{
    if !is_receptive(thread) {
        return false;
    }
    flight.first_for(t).is_some()
}

impl Threads {
    ghost use Rattle.thread_table.specs.Kinds.{IsKind};

    /// Whether the thread of this number has this to do; not where there is no such thread.
    pub fn has(&self, kind: EntryKind, t: u32) -> bool
        ensures { MatchBool result (IsKind kind t self.now) (IsKind kind t self.now → ⊥) }
    {
        let Some(thread) = self.list.get(t as usize) else {
            return false;
        };
        if thread.finished {
            return false;
        }
        match kind {
            EntryKind::Op => !thread.blocked && is_op(thread.stack.control()),
            EntryKind::Finish => !thread.blocked && is_bare(&thread.stack),
            EntryKind::Local => !thread.blocked && meets(&thread.stack),
            EntryKind::Receive => hears(thread, &self.flight, t),
        }
    }
}
