//! What a picture looks at.
ghost use Rattle.std.specs.Prelude.{◌≡◌, IfOk, slice_get, length, is_some, ◌<◌};
ghost use Rattle.mvar_cell.specs.Calls.{cell_at};
ghost use Rattle.trace_picture.specs.Looking.{asleep_until, operation_doing, control_doing, thread_doing, pose_at, poses_at, fulls_at, operation_deed, operates, ends, by_control, event_at, frame_at};
ghost use Rattle.trace_picture.specs.film.Filming.{receive_event};
ghost use Rattle.rules_waiting.specs.Waiting.{flying_to, first_thrown};

use frame_stack::{Control, Prim};
use hs_base::NoMemory;
use hs_items::Items;
use hs_rules::Entry;
use lane_picture::{Deed, Doing, Event, Frame, Pose};
use std::alloc::Global;
use thread_table::Thread;
use world_entries::World;

fn asleep(due: Option<u64>) -> Doing
    ensures { result ≡ asleep_until due }
{
    match due {
        Some(due) => Doing::Sleeping(due),
        None => Doing::Running,
    }
}

fn operation(due: Option<u64>, prim: &Prim) -> Doing
    ensures { result ≡ operation_doing due prim.now }
{
    match prim {
        Prim::TakeMVar(m) => Doing::Taking(*m),
        Prim::ReadMVar(m) => Doing::Reading(*m),
        Prim::PutMVar(m, _) => Doing::Putting(*m),
        Prim::ThrowTo(u, _) => Doing::Throwing(*u),
        Prim::ThreadDelay(_) => asleep(due),
        _ => Doing::Running,
    }
}

fn waits(due: Option<u64>, control: &Control) -> Doing
    ensures { result ≡ control_doing due control.now }
{
    match control {
        Control::Op(prim) => operation(due, prim),
        _ => Doing::Running,
    }
}

fn doing(world: &World, t: u32, thread: &Thread) -> Doing
    ensures { result ≡ thread_doing world.now t thread.now }
{
    if thread.blocked {
        waits(world.sleepers.due_of(t), thread.stack.control())
    } else {
        Doing::Running
    }
}

fn pose(world: &World, t: u32, thread: &Thread) -> Option<Pose>
    ensures { result ≡ pose_at world.now t thread.now }
{
    if thread.finished {
        return None;
    }
    Some(Pose {
        doing: doing(world, t, thread),
        mask: thread.stack.mask(),
    })
}

/// The same by a number that may be none of a thread.
fn pose_by(world: &World, t: u64, thread: &Thread) -> Result<Option<Pose>, NoMemory>
    ensures { IfOk result (λ p. p ≡ pose_at world.now t thread.now) }
{
    let number = u32::try_from(t).map_err(|_| NoMemory)?;
    Ok(pose(world, number, thread))
}

fn poses(alloc: Global, world: &World) -> Result<Items<Option<Pose>>, NoMemory>
    ensures { IfOk result (λ ps. ps ≡ poses_at world.now 0 world.now.threads.list.items) }
{
    let mut poses = Vec::new(alloc);
    let mut t = 0u64;
    for thread in &world.threads.list {
        let pose = pose_by(world, t, thread)?;
        poses.reserve(1)?;
        poses.push_reserved(pose);
        t += 1;
    }
    Ok(Items::from_vec(poses))
}

/// Whether a cell is full.
fn full(world: &World, m: usize) -> Result<bool, NoMemory>
    requires { m < length world.now.cells.cells }
    ensures { IfOk result (λ f. f ≡ is_some (cell_at m world.now.cells).content) }
{
    let number = u32::try_from(m).map_err(|_| NoMemory)?;
    Ok(world.cells.content(number).is_some())
}

fn fulls(alloc: Global, world: &World) -> Result<Items<bool>, NoMemory>
    ensures { IfOk result (λ fs. fs ≡ fulls_at world.now.cells.cells) }
{
    let mut fulls = Vec::new(alloc);
    for m in 0..world.cells.len() {
        let full = full(world, m)?;
        fulls.reserve(1)?;
        fulls.push_reserved(full);
    }
    Ok(Items::from_vec(fulls))
}

fn deed(alloc: Global, prim: &Prim) -> Result<Deed, NoMemory>
    ensures { IfOk result (λ d. d ≡ operation_deed prim.now) }
{
    match prim {
        Prim::PutStr(x) => Ok(Deed::Prints(x.copy(alloc)?)),
        Prim::PutStrLn(x) => Ok(Deed::Prints(x.copy(alloc)?)),
        Prim::HPutStrLn(x) => Ok(Deed::Reports(x.copy(alloc)?)),
        Prim::NewMVar(_) => Ok(Deed::MakesCell),
        Prim::NewEmptyMVar => Ok(Deed::MakesCell),
        Prim::TakeMVar(m) => Ok(Deed::Takes(*m)),
        Prim::PutMVar(m, _) => Ok(Deed::Puts(*m)),
        Prim::ReadMVar(m) => Ok(Deed::Reads(*m)),
        Prim::TryTakeMVar(m) => Ok(Deed::TriesToTake(*m)),
        Prim::TryPutMVar(m, _) => Ok(Deed::TriesToPut(*m)),
        Prim::ThreadDelay(_) => Ok(Deed::Delays),
        Prim::ThrowTo(u, exn) => Ok(Deed::Throws(*u, exn.copy(alloc)?)),
        Prim::Acquired => Ok(Deed::Acquires),
        Prim::Release(_) => Ok(Deed::Releases),
        Prim::Fork(_, _) => Ok(Deed::Forks),
        Prim::ForkUnmask(_, _) => Ok(Deed::Forks),
        _ => Ok(Deed::Asks),
    }
}

fn operated(alloc: Global, t: u32, control: &Control) -> Result<Event, NoMemory>
    ensures { IfOk result (λ e. e ≡ operates t control.now) }
{
    match control {
        Control::Op(prim) => Ok(Event::Does(t, deed(alloc, prim)?)),
        Control::Doing(_, _) => Ok(Event::Nothing),
        Control::Ret(_) => Ok(Event::Nothing),
        Control::Throw(_) => Ok(Event::Nothing),
    }
}

fn ended(alloc: Global, t: u32, control: &Control) -> Result<Event, NoMemory>
    ensures { IfOk result (λ e. e ≡ ends t control.now) }
{
    match control {
        Control::Op(_) => Ok(Event::Nothing),
        Control::Doing(_, _) => Ok(Event::Nothing),
        Control::Ret(_) => Ok(Event::Returns(t)),
        Control::Throw(exn) => Ok(Event::Fails(t, exn.copy(alloc)?)),
    }
}

fn operation_event(alloc: Global, world: &World, t: u32) -> Result<Event, NoMemory>
    ensures { IfOk result (λ e. e ≡ by_control (operates t) (slice_get world.now.threads.list.items t)) }
{
    match world.threads.list.get(t as usize) {
        Some(thread) => operated(alloc, t, thread.stack.control()),
        None => Ok(Event::Nothing),
    }
}

fn end_event(alloc: Global, world: &World, t: u32) -> Result<Event, NoMemory>
    ensures { IfOk result (λ e. e ≡ by_control (ends t) (slice_get world.now.threads.list.items t)) }
{
    match world.threads.list.get(t as usize) {
        Some(thread) => ended(alloc, t, thread.stack.control()),
        None => Ok(Event::Nothing),
    }
}

fn received(alloc: Global, world: &World, t: u32) -> Result<Event, NoMemory>
    ensures { IfOk result (λ e. e ≡ receive_event t (first_thrown (flying_to t world.now.threads.flight.list))) }
{
    match world.threads.flight.first_for(t) {
        Some((thrower, exn)) => Ok(Event::Receives(t, thrower, exn.copy(alloc)?)),
        None => Ok(Event::Nothing),
    }
}

/// What an entry is about to do.
pub fn event(alloc: Global, world: &World, entry: Entry) -> Result<Event, NoMemory>
    ensures { IfOk result (λ e. e ≡ event_at entry world.now) }
{
    match entry {
        Entry::Local { t, k } => Ok(Event::Steps(t, k)),
        Entry::Op { t } => operation_event(alloc, world, t),
        Entry::Receive { t } => received(alloc, world, t),
        Entry::Wake { t } => Ok(Event::Wakes(t)),
        Entry::Finish { t } => end_event(alloc, world, t),
        Entry::Tick { at } => Ok(Event::Ticks(at)),
        Entry::Stranded => Ok(Event::Strands),
    }
}

/// The frame of an event that has led to this world.
pub fn frame(alloc: Global, world: &World, event: Event) -> Result<Frame, NoMemory>
    ensures { IfOk result (λ f. f ≡ frame_at event world.now) }
{
    Ok(Frame {
        event,
        poses: poses(alloc, world)?,
        cells: fulls(alloc, world)?,
    })
}
