//! How far a control goes alone.
ghost use Rattle.std.specs.Prelude.{◌≡◌, ◌<◌, ◌≤◌, ◌⊎◌, [], ◌↔◌, IsTrue, IfOk, IfErr, OnOk, Some};
ghost use Rattle.rules_code.specs.declared.code.CodeBody.{CodeBody};
ghost use Rattle.slot_laws.specs.SlotRules.{at, local, locals};
ghost use Rattle.local_steps.specs.Machine.{active_of, frames_of, funs_of};
ghost use Rattle.frame_stack.specs.Parts.{part_of};
ghost use Rattle.frame_stack.specs.Slicing.{Cuts, Fits, IsDoing, MayGo, Stops};

use crate::asking::asked;
use crate::control::{Control, Operation};
use crate::fault::SliceFault;
use hs_base::{Mask, NoMemory, Value};
use hs_io::Cutter;
use local_steps::environments::Spare;
use local_steps::{Active, Frames, StepResult, step, step_in_place};
use rules_code::CodeBody;
use std::alloc::Global;
use std::mem;

/// A slice asks its cutter before its first rule and before each of so many behind it.
const LOOK: u32 = 64;

/// How far a control went alone.
#[derive(Drop)]
pub struct Ran {
    pub pushed: Frames,
    pub end: Active,
    pub steps: u32,
}

/// What a job lets its slice do.
#[derive(Clone, Copy)]
pub struct SliceBounds {
    /// The masking state of its thread.
    pub mask: Mask,
    /// So many rules at most.
    pub budget: u32,
    /// It is cut by this one.
    pub ticket: u64,
}

/// Some local rules of an action alone: the budget, or as many as it goes on.
pub fn run<C: Cutter>(
    alloc: Global,
    body: &CodeBody,
    start: Active,
    bounds: SliceBounds,
    cutter: &mut C,
) -> Result<Ran, SliceFault>
    requires may { ∥ MayGo body.now bounds.mask (active_of body.now start) [] ∥₁ }
    requires doing { Stops (active_of body.now start) [] → ⊥ }
    requires budget { 0 < bounds.budget }
    ensures moves { IfOk result (λ r. locals (funs_of body.now) bounds.mask r.steps (at (active_of body.now start) []) ≡ Some (at (active_of body.now r.end) (frames_of body.now r.pushed.list))) }
    ensures under { IfOk result (λ r. r.pushed.below ≡ bounds.mask) }
    ensures steps { IfOk result (λ r. (0 < r.steps) × (r.steps ≤ bounds.budget)) }
    ensures stops { IfOk result (λ r. Stops (active_of body.now r.end) r.pushed.list ⊎ (r.steps ≡ bounds.budget)) }
    ensures may { IfOk result (λ r. ∥ MayGo body.now bounds.mask (active_of body.now r.end) (frames_of body.now r.pushed.list) ∥₁) }
    ensures cut { IfErr result (Cuts bounds.ticket (C.last cutter.new)) }
{
    let mut active = start;
    let mut frames = Frames::new(alloc, bounds.mask);
    let mut spare = Spare::new(alloc);
    for done in 0..bounds.budget {
        if done % LOOK == 0 {
            look(bounds.ticket, cutter)?;
        }
        step_on(alloc, body, &mut active, &mut frames, &mut spare)?;
        if stopped(&active, &frames) {
            return Ok(Ran {
                pushed: frames,
                end: active,
                steps: done + 1,
            });
        }
    }
    Ok(Ran {
        pushed: frames,
        end: active,
        steps: bounds.budget,
    })
}

/// Asks whether the job of this ticket is still wanted.
fn look<C: Cutter>(ticket: u64, cutter: &mut C) -> Result<(), SliceFault>
    ensures { IfErr result (Cuts ticket (C.last cutter.new)) }
{
    let loaded = cutter.look();
    if loaded != 0 && loaded == ticket {
        return Err(SliceFault::Cut { loaded });
    }
    Ok(())
}

/// One local rule of an active part that doesn't stop.
fn step_on(
    alloc: Global,
    body: &CodeBody,
    active: &mut Active,
    frames: &mut Frames,
    spare: &mut Spare,
) -> Result<(), NoMemory>
    requires may { ∥ MayGo body.now frames.old.below (active_of body.now active.old) (frames_of body.now frames.old.list) ∥₁ }
    requires goes { Stops (active_of body.now active.old) frames.old.list → ⊥ }
    ensures rule { OnOk result (local (funs_of body.now) frames.old.below (active_of body.now active.old) (frames_of body.now frames.old.list) ≡ Some (at (active_of body.now active.new) (frames_of body.now frames.new.list))) }
    ensures below { frames.new.below ≡ frames.old.below }
    ensures may { OnOk result ∥ MayGo body.now frames.old.below (active_of body.now active.new) (frames_of body.now frames.new.list) ∥₁ }
{
    if step_in_place(alloc, body, active, spare)? {
        return Ok(());
    }
    let part = mem::replace(active, Active::Ret(Value::Unit));
    match step(alloc, body, part, frames)? {
        StepResult::To(next) => *active = next,
        StepResult::Stuck => unreachable!(),
    }
    Ok(())
}

/// Whether a slice goes no further.
fn stopped(active: &Active, frames: &Frames) -> bool
    ensures { (b : CodeBody) → IsTrue result ↔ Stops (active_of b active.now) frames.now.list }
{
    match active {
        Active::Doing(_, _) => false,
        Active::Ret(_) => frames.is_empty(),
        Active::Throw(_) => frames.is_empty(),
        Active::Asks(_, _) => true,
        Active::Forks(_, _) => true,
        Active::ForksUnmask(_, _) => true,
    }
}

/// The active part that a job starts with.
#[tactic(auto, using(crate::proofs::Progress::is_doing))]
pub fn active(alloc: Global, start: &Control) -> Result<Active, NoMemory>
    requires { ∥ IsDoing start.now ∥₁ }
    ensures { IfOk result (λ a. (b : CodeBody) → active_of b a ≡ part_of b start.now) }
{
    match start {
        Control::Doing(i, env) => Ok(Active::Doing(*i, env.copy(alloc)?)),
        _ => unreachable!(),
    }
}

/// The control that an active part is.
#[tactic(auto, using(crate::proofs::Forms::others_unfit))]
pub fn control(active: Active) -> Control
    requires { Fits active }
    ensures { (b : CodeBody) → part_of b result ≡ active_of b active }
{
    match active {
        Active::Doing(i, env) => Control::Doing(i, env),
        Active::Ret(value) => Control::Ret(value),
        Active::Throw(exn) => Control::Throw(exn),
        Active::Asks(primitive, values) => match asked(primitive, values) {
            Some(prim) => Control::Op(prim),
            None => unreachable!(),
        },
        Active::Forks(i, env) => Control::Op(Operation::Fork(i, env)),
        Active::ForksUnmask(i, env) => Control::Op(Operation::ForkUnmask(i, env)),
    }
}
