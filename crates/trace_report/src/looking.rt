//! What a report looks at.
ghost use Rattle.std.specs.Prelude.{◌≡◌, slice_get};
ghost use Rattle.trace_report.specs.Looking.{operation_touch, control_touch, touch_at, blocked_at as blocked_by, full_at, line_at, ended_word, word_at};

use crate::tally::{Touch, Word};
use frame_stack::{Control, Prim};
use thread_table::Threads;
use world_entries::World;

/// What an operation has to do with a cell.
fn operation(prim: &Prim) -> Touch
    ensures { result ≡ operation_touch prim.now }
{
    match prim {
        Prim::TakeMVar(m) => Touch::Takes(*m),
        Prim::ReadMVar(m) => Touch::Reads(*m),
        Prim::PutMVar(m, _) => Touch::Puts(*m),
        Prim::TryTakeMVar(m) => Touch::TriesToTake(*m),
        Prim::TryPutMVar(m, _) => Touch::TriesToPut(*m),
        _ => Touch::Nothing,
    }
}

fn control(control: &Control) -> Touch
    ensures { result ≡ control_touch control.now }
{
    match control {
        Control::Op(prim) => operation(prim),
        _ => Touch::Nothing,
    }
}

/// What a thread has to do with a cell.
pub fn touch(threads: &Threads, t: u32) -> Touch
    ensures { result ≡ touch_at (slice_get threads.now.list.items t) }
{
    match threads.list.get(t as usize) {
        Some(thread) => control(thread.stack.control()),
        None => Touch::Nothing,
    }
}

/// Whether a thread is blocked.
pub fn is_blocked(threads: &Threads, t: u32) -> bool
    ensures { result ≡ blocked_by (slice_get threads.now.list.items t) }
{
    match threads.list.get(t as usize) {
        Some(thread) => thread.blocked,
        None => false,
    }
}

/// Whether a cell is full.
pub fn is_full(world: &World, m: u32) -> bool
    ensures { result ≡ full_at (slice_get world.now.cells.cells m) }
{
    (m as usize) < world.cells.len() && world.cells.content(m).is_some()
}

/// How many wait in the line of a cell.
pub fn line(world: &World, m: u32) -> usize
    ensures { result ≡ line_at (slice_get world.now.cells.cells m) }
{
    if (m as usize) < world.cells.len() {
        world.cells.waiting(m)
    } else {
        0
    }
}

fn ended(control: &Control) -> Word
    ensures { result ≡ ended_word control.now }
{
    match control {
        Control::Ret(_) => Word::Done,
        Control::Throw(_) => Word::Failed,
        _ => Word::Running,
    }
}

/// How a thread stands.
pub fn word(threads: &Threads, t: usize) -> Word
    ensures { result ≡ word_at (slice_get threads.now.list.items t) }
{
    let Some(thread) = threads.list.get(t) else {
        return Word::Running;
    };
    if thread.finished {
        return ended(thread.stack.control());
    }
    if thread.blocked {
        Word::Waiting
    } else {
        Word::Running
    }
}
