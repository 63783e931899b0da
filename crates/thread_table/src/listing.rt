//! Who has something to do.
ghost use Rattle.std.specs.Prelude.{◌≡◌, ◌<◌, ◌^◌, ◌&&◌, slice_get, true};
ghost use Rattle.hs_rules.specs.Entries as entries;
ghost use Rattle.thread_table.specs.Listing as lists;
ghost use Rattle.thread_table.specs.Table as table;

use crate::thread::Thread;
use exn_flight::Flight;
use frame_stack::{Control, Prim};
use hs_base::Mask;

fn is_doing(control: &Control) -> bool
    ensures { result ≡ lists.is_doing control.now }
{
    match control {
        Control::Doing(_, _) => true,
        Control::Ret(_) => false,
        Control::Throw(_) => false,
        Control::Op(_) => false,
    }
}

fn is_throw(control: &Control) -> bool
    ensures { result ≡ lists.is_throw control.now }
{
    match control {
        Control::Doing(_, _) => false,
        Control::Ret(_) => false,
        Control::Throw(_) => true,
        Control::Op(_) => false,
    }
}

fn is_interruptible(mask: Mask) -> bool
    ensures { result ≡ entries.is_interruptible mask }
{
    match mask {
        Mask::Unmasked => true,
        Mask::Masked => true,
        Mask::Uninterruptible => false,
    }
}

fn is_unmasked(mask: Mask) -> bool
    ensures { result ≡ entries.is_unmasked mask }
{
    match mask {
        Mask::Unmasked => true,
        Mask::Masked => false,
        Mask::Uninterruptible => false,
    }
}

/// Whether a thread that hasn't finished can receive an exception.
pub fn is_receptive(thread: &Thread) -> bool
    ensures { result ≡ lists.is_receptive thread.now }
{
    if is_throw(thread.stack.control()) {
        return false;
    }
    let mask = thread.stack.mask();
    if thread.blocked {
        is_interruptible(mask)
    } else {
        is_unmasked(mask)
    }
}

/// Whether it has an entry of its own, other than local rules of an action.
pub fn has_own(thread: &Thread) -> bool
    ensures { result ≡ lists.has_own thread.now }
{
    !thread.blocked && !is_doing(thread.stack.control())
}

/// Whether the thread of this number has something to do.
pub fn wants(list: &Vec<Thread>, flight: &Flight, t: u32) -> bool
    ensures { result ≡ lists.wants t list.now.items flight.now.list }
{
    let Some(thread) = list.get(t as usize) else {
        return false;
    };
    if thread.finished {
        return false;
    }
    if has_own(thread) {
        return true;
    }
    is_receptive(thread) && flight.first_for(t).is_some()
}

/// How many frames of it are counted: none where it has finished.
pub fn counted_frames(thread: &Thread) -> u64
    ensures value { result ≡ table.counted_frames thread.now }
    ensures few { result < 2 ^ 32 }
{
    if thread.finished {
        0
    } else {
        u64::from(thread.stack.frames())
    }
}

/// Whether it is to do an action: it hasn't finished and isn't blocked.
fn goes(thread: &Thread) -> bool
    ensures { result ≡ lists.goes thread.now }
{
    !thread.finished && !thread.blocked && is_doing(thread.stack.control())
}

/// Counts it where it is to do an action.
pub fn counted_going(thread: &Thread) -> u64
    ensures { result ≡ lists.counted_going thread.now }
{
    if goes(thread) { 1 } else { 0 }
}

/// Whether the thread of this number is to do an action.
pub fn goes_at(list: &Vec<Thread>, t: u32) -> bool
    ensures { result ≡ lists.goes_at (slice_get list.now.items t) }
{
    let Some(thread) = list.get(t as usize) else {
        return false;
    };
    goes(thread)
}

/// Whether it stands at an operation that waits at a cell.
fn is_at_cell(control: &Control) -> bool
    ensures { result ≡ lists.is_at_cell control.now }
{
    match control {
        Control::Op(Prim::TakeMVar(_)) => true,
        Control::Op(Prim::ReadMVar(_)) => true,
        Control::Op(Prim::PutMVar(_, _)) => true,
        _ => false,
    }
}

/// Whether a blocked thread may be stranded.
pub fn may_strand(thread: &Thread) -> bool
    ensures { result ≡ lists.is_at_cell thread.now.stack.control && entries.is_interruptible (lists.mask_of thread.now) }
{
    is_at_cell(thread.stack.control()) && is_interruptible(thread.stack.mask())
}

/// Whether the thread of this number may be stranded.
pub fn waits_open(list: &Vec<Thread>, t: u32) -> bool
    ensures { result ≡ lists.waits_open (slice_get list.now.items t) }
{
    let Some(thread) = list.get(t as usize) else {
        return false;
    };
    thread.blocked && may_strand(thread)
}

/// The cell of the operation that it stands at.
pub fn cell_of(thread: &Thread) -> u32
    requires { lists.is_at_cell thread.now.stack.control ≡ true }
    ensures { lists.WaitsAtCell result thread.now.stack.control }
{
    match thread.stack.control() {
        Control::Op(Prim::TakeMVar(cell)) => *cell,
        Control::Op(Prim::ReadMVar(cell)) => *cell,
        Control::Op(Prim::PutMVar(cell, _)) => *cell,
        _ => unreachable!(),
    }
}
