//! A slice of a thread.
ghost use Rattle.std.specs.Prelude.{◌≡◌, ◌<◌, ◌≤◌, ◌⊎◌, IfOk, IfErr};
ghost use Rattle.rules_code.specs.Codes as codes;
ghost use Rattle.frame_stack.specs.Parts.{part_of};
ghost use Rattle.frame_stack.specs.Slicing.{Cuts, Stops};

use crate::fault::SliceFault;
use crate::job::Job;
use crate::running::{Ran, SliceBounds, active, control, run};
use crate::sliced::Slice;
use hs_io::Cutter;
use rules_code::{Code, CodeBody};
use std::alloc::Global;

/// Lends what a code is.
pub fn body(code: &Code) -> &CodeBody
    ensures { result.now ≡ codes.body_of code.now }
{
    &code.body
}

/// The slice of a job of this code: local rules in turn, up to the budget, as far as the action goes alone. It stops where
/// the budget is used up, at an operation, and at a value or an exception with no frame of its own; no rule leads on from
/// the last two. `Cut` comes only where the cutter's last answer is the job's ticket, and that isn't 0. A fault drops the
/// job, and the cutter stays where its last look left it.
pub fn slice<C: Cutter>(
    alloc: Global,
    code: &Code,
    job: Job,
    cutter: &mut C,
) -> Result<Slice, SliceFault>
    requires { job.of.value ≡ codes.body_of code.now }
    ensures same { IfOk result (λ s. (s.ticket ≡ job.ticket) × (s.tid ≡ job.tid) × (s.start ≡ job.start) × (s.mask ≡ job.mask) × (s.of.value ≡ job.of.value)) }
    ensures steps { IfOk result (λ s. (0 < s.steps) × (s.steps ≤ job.budget)) }
    ensures stops { IfOk result (λ s. Stops (part_of s.of.value s.end) s.pushed.list ⊎ (s.steps ≡ job.budget)) }
    ensures cut { IfErr result (Cuts job.ticket (C.last cutter.new)) }
{
    let Job {
        ticket,
        tid,
        start,
        mask,
        budget,
        of,
    } = job;
    let first = active(alloc, &start)?;
    let bounds = SliceBounds {
        mask,
        budget,
        ticket,
    };
    let ran = run(alloc, body(code), first, bounds, cutter)?;
    let Ran { pushed, end, steps } = ran;
    let end = control(end);
    Ok(Slice {
        ticket,
        tid,
        start,
        mask,
        pushed,
        end,
        steps,
        of,
    })
}
