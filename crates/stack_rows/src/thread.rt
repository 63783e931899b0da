//! The thread of `main`, by itself.
ghost use Rattle.std.specs.Prelude.{◌≡◌, ◌<◌, ◌≤◌, [], IfOk, IfSome, IsErr};
ghost use Rattle.rules_code.specs.Codes.{body_of};
ghost use Rattle.frame_stack.specs.declared.control.Control.TheVariants as control;
ghost use Rattle.local_steps.specs.Frames.{mask_inside};
ghost use Rattle.hs_base.specs.declared.mask.Mask.TheVariants.{Unmasked};
ghost use Rattle.stack_rows.specs.Threads.{IsThread};

use crate::flaw::Flaw;
use frame_stack::{Control, Env, Job, Slice, SliceFault, Stack, slice};
use hs_base::Mask;
use hs_io::NeverCut;
use rules_code::{Code, CodeBody};
use std::alloc::Global;
use std::snapshot::Snapshot;

/// A stack that stands for a term of a code's script.
#[derive(Drop)]
pub struct Thread {
    pub stack: Stack,
    pub of: Snapshot<CodeBody>,
    pub ghost stands: { ∥ IsThread of.value stack ∥₁ },
}

/// The thread of `main` at its start, in a masking scope or in none.
pub fn main_thread(alloc: Global, code: &Code, mask: Option<Mask>) -> Result<Thread, Flaw>
    ensures { IfOk result (λ t. t.of.value ≡ body_of code.now) }
{
    let start = Control::Doing(code.main(), Env::new(alloc));
    let stack = match mask {
        None => Stack::first(alloc, start),
        Some(mask) => Stack::child(alloc, mask, start)?,
    };
    Ok(Thread {
        stack,
        of: Snapshot::of(&code.body),
    })
}

/// The job to do so many rules of a thread that is to do an action.
fn job_of(alloc: Global, code: &Code, thread: &Thread, budget: u32) -> Result<Option<Job>, Flaw>
    requires of { thread.now.of.value ≡ body_of code.now }
    requires some { 0 < budget }
    requires few { budget ≤ 1024 }
    ensures of { IfOk result (λ o. IfSome o (λ job. job.of.value ≡ body_of code.now)) }
    ensures start { IfOk result (λ o. IfSome o (λ job. job.start ≡ thread.now.stack.control)) }
    ensures mask { IfOk result (λ o. IfSome o (λ job. job.mask ≡ mask_inside Unmasked thread.now.stack.frames)) }
{
    let Control::Doing(at, env) = thread.stack.control() else {
        return Ok(None);
    };
    let start = Control::Doing(*at, env.copy(alloc)?);
    Ok(Some(Job {
        ticket: 1,
        tid: 0,
        start,
        mask: thread.stack.mask(),
        budget,
        of: Snapshot::of(&code.body),
    }))
}

/// Does the next slice of a thread that is to do an action, and answers the thread with how many rules that were, or with 0
/// where it does something else.
pub fn go_on(alloc: Global, code: &Code, thread: Thread, budget: u32) -> Result<(Thread, u32), Flaw>
    requires of { thread.of.value ≡ body_of code.now }
    requires some { 0 < budget }
    requires few { budget ≤ 1024 }
    ensures { IfOk result (λ r. r.0.of.value ≡ body_of code.now) }
{
    match job_of(alloc, code, &thread, budget) {
        Ok(Some(job)) => match done(alloc, code, job) {
            Ok(slice) => accepted(thread, slice),
            Err(flaw) => given_up(thread, flaw),
        },
        Ok(None) => Ok((thread, 0)),
        Err(flaw) => given_up(thread, flaw),
    }
}

// The slice of a job.
fn done(alloc: Global, code: &Code, job: Job) -> Result<Slice, Flaw>
    requires { job.of.value ≡ body_of code.now }
    ensures { IfOk result (λ s. (s.start ≡ job.start) × (s.mask ≡ job.mask) × (s.of.value ≡ body_of code.now)) }
{
    match slice(alloc, code, job, &mut NeverCut) {
        Ok(slice) => Ok(slice),
        Err(SliceFault::NoMemory) => Err(Flaw::NoMemory),
        Err(SliceFault::Cut { loaded: _ }) => Err(Flaw::Says("a slice was cut")),
    }
}

// The thread after a slice, and how many rules that was.
fn accepted(thread: Thread, slice: Slice) -> Result<(Thread, u32), Flaw>
    requires of { slice.of.value ≡ thread.of.value }
    requires start { slice.start ≡ thread.stack.control }
    requires mask { slice.mask ≡ mask_inside Unmasked thread.stack.frames }
    ensures { IfOk result (λ r. r.0.of.value ≡ thread.of.value) }
{
    let steps = slice.steps;
    let Thread { mut stack, of } = thread;
    match stack.accept(slice) {
        Ok(()) => Ok((Thread { stack, of }, steps)),
        Err(slice) => not_accepted(stack, slice),
    }
}

// A stack accepts each slice of its own but for want of memory.
fn not_accepted(_stack: Stack, _slice: Slice) -> Result<(Thread, u32), Flaw>
    ensures { IsErr result }
{
    Err(Flaw::NoMemory)
}

fn given_up(_thread: Thread, flaw: Flaw) -> Result<(Thread, u32), Flaw>
    ensures { IsErr result }
{
    Err(flaw)
}
