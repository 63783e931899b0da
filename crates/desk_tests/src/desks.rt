//! Desks in memory, and their jobs.
ghost use Rattle.std.specs.Prelude.{◌≡◌, ◌<◌, IfOk, IfSome};
ghost use Rattle.run_course.specs.Settled.{KeepsPlan};

use conc_world::Desk;
use frame_stack::{Job, Slice, slice};
use hs_base::{Limits, NoMemory};
use hs_compile::compile;
use hs_io::{NeverCut, NullSink, VirtualClock};
use std::alloc::Global;

/// A desk over sinks that tell nothing, and a virtual clock.
pub type Quiet = Desk<NullSink, NullSink, VirtualClock>;

/// The desk of a script, with so much fuel; nothing where the bytes are no script, or for want of memory.
pub fn at(alloc: Global, script: &[u8], fuel: u32) -> Option<Quiet>
    requires { 0 < fuel }
{
    let code = compile(alloc, script).ok()?;
    Desk::begin(
        alloc,
        code,
        fuel,
        Limits::shipped(),
        NullSink,
        NullSink,
        VirtualClock::new(),
    )
    .ok()
}

/// The next job, where it is one of this thread, or the one behind it: the first is taken back then.
pub fn job_of(desk: &mut Quiet, thread: u32) -> Option<Job>
    ensures code { IfSome result (λ j. j.of.value ≡ desk.new.course.clocked.record.of.value) }
    ensures plan { KeepsPlan desk.old.course.clocked.record desk.new.course.clocked.record }
{
    let first = next(desk)?;
    if first.tid == thread {
        return Some(first);
    }
    let second = next(desk);
    desk.drop_job(first.ticket);
    second
}

fn next(desk: &mut Quiet) -> Option<Job>
    ensures code { IfSome result (λ j. j.of.value ≡ desk.new.course.clocked.record.of.value) }
    ensures plan { KeepsPlan desk.old.course.clocked.record desk.new.course.clocked.record }
{
    match desk.next_job() {
        Ok(job) => job,
        Err(_) => None,
    }
}

/// The slice of a job.
pub fn ran(desk: &Quiet, job: Job) -> Result<Slice, NoMemory>
    requires { job.of.value ≡ desk.now.course.clocked.record.of.value }
    ensures { IfOk result (λ s. s.of.value ≡ desk.now.course.clocked.record.of.value) }
{
    let alloc = desk.course.clocked.record.world.alloc;
    match slice(alloc, desk.code(), job, &mut NeverCut) {
        Ok(slice) => Ok(slice),
        Err(_) => Err(NoMemory),
    }
}
