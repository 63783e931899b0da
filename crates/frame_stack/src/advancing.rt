//! Local rules of a thread as they come, over all of its frames.
//!
//! The stack stays as it is until all of them are done: they are tried on a copy of its control and on copies of the few frames
//! that they use up, one at a time, so the cost goes by the rules and not by the depth of the stack.
ghost use Rattle.std.specs.Prelude.{◌≡◌, ◌<◌, [], false, drop, ◌↔◌, IsTrue, IfOk, OnOk, OnErr, MatchOption, Some, None};
ghost use Rattle.hs_base.specs.declared.mask.Mask.TheVariants.{Unmasked};
ghost use Rattle.rules_code.specs.declared.code.CodeBody.{CodeBody};
ghost use Rattle.rules_code.specs.Codes.{body_of};
ghost use Rattle.slot_laws.specs.SlotRules.{at, local, locals};
ghost use Rattle.local_steps.specs.Machine.{active_of, frames_of, funs_of};
ghost use Rattle.frame_stack.specs.Parts.{part_of, term_of, IsOp};
ghost use Rattle.frame_stack.specs.Slicing.{Fits};
ghost use Rattle.frame_stack.specs.Advancing.{HasWalked, MayAdvance, IsBare, IsOver, over_frames, walk_step, walk_term};

use crate::control::Control;
use crate::running::control;
use crate::slicing::body;
use crate::stack::Stack;
use hs_base::{NoMemory, Value};
use local_steps::environments::Spare;
use local_steps::{Active, Frames, StepResult, step, step_in_place};
use rules_code::{Code, CodeBody};
use std::alloc::Global;
use std::mem;

/// A thread on its way over the frames of a stack.
pub struct Walk {
    pub part: Active,
    /// The frames of its own, over those of the stack that are left.
    pub own: Frames,
    /// So many of the stack's frames are used up.
    pub gone: u32,
}

// Written out, so that it is proved once, here, and not in each function below that lets one go.
impl Drop for Walk {
    fn drop(self) {
        let Walk {
            part: _,
            own: _,
            gone: _,
        } = self;
    }
}

impl Walk {
    /// The stack stands where the walk has come to. Where memory runs out it is as before.
    fn end(self, stack: &mut Stack) -> Result<(), NoMemory>
        requires fits { Fits self.part }
        requires over { IsOver Unmasked stack.old.frames self }
        ensures ok { OnOk result ((b : CodeBody) → term_of b stack.new ≡ at (active_of b self.part) (frames_of b (over_frames self stack.old.frames))) }
        ensures err { OnErr result (stack.new ≡ stack.old) }
    {
        let Walk { part, own, gone } = self;
        stack.put_over(control(part), gone, own)
    }
}

/// The active part of a control that is no operation.
fn starting(alloc: Global, start: &Control) -> Result<Option<Active>, NoMemory>
    ensures { IfOk result (λ found. MatchOption found (IsOp start.now) (λ p. (b : CodeBody) → active_of b p ≡ part_of b start.now)) }
{
    match start {
        Control::Doing(i, env) => Ok(Some(Active::Doing(*i, env.copy(alloc)?))),
        Control::Ret(value) => Ok(Some(Active::Ret(value.copy(alloc)?))),
        Control::Throw(exn) => Ok(Some(Active::Throw(exn.copy(alloc)?))),
        Control::Op(_) => Ok(None),
    }
}

/// Whether it is a value or an exception with no frame of its own.
fn is_bare(active: &Active, own: &Frames) -> bool
    ensures is { (b : CodeBody) → IsTrue result ↔ IsBare (active_of b active.now) own.now.list }
    ensures own { IsTrue result → own.now.list ≡ [] }
{
    match active {
        Active::Doing(_, _) => false,
        Active::Ret(_) => own.is_empty(),
        Active::Throw(_) => own.is_empty(),
        Active::Asks(_, _) => false,
        Active::Forks(_, _) => false,
        Active::ForksUnmask(_, _) => false,
    }
}

/// A value or an exception with no frame of its own gets the next frame of the stack. Not where it needs one and none is left.
fn framed(alloc: Global, frames: &Frames, walk: &mut Walk) -> Result<bool, NoMemory>
    requires over { IsOver frames.now.below frames.now.list walk.old }
    ensures over { IfOk result (λ done. IsTrue done → IsOver frames.now.below frames.now.list walk.new) }
    ensures same { IfOk result (λ done. IsTrue done → over_frames walk.new frames.now.list ≡ over_frames walk.old frames.now.list) }
    ensures meets { IfOk result (λ done. IsTrue done → (b : CodeBody) → IsBare (active_of b walk.new.part) walk.new.own.list → ⊥) }
    ensures none { IfOk result (λ done. (done ≡ false) → (over_frames walk.old frames.now.list ≡ []) × ((b : CodeBody) → IsBare (active_of b walk.old.part) walk.old.own.list)) }
    ensures part { walk.new.part ≡ walk.old.part }
{
    if !is_bare(&walk.part, &walk.own) {
        return Ok(true);
    }
    if walk.gone == frames.len() {
        return Ok(false);
    }
    match frames.alone(alloc, walk.gone, walk.own.mask())? {
        None => Ok(false),
        Some(frame) => {
            walk.own = frame;
            walk.gone += 1;
            Ok(true)
        }
    }
}

/// One local rule of a part over frames of its own, if there is one.
fn step_alone(
    alloc: Global,
    body: &CodeBody,
    active: &mut Active,
    own: &mut Frames,
    spare: &mut Spare,
) -> Result<bool, NoMemory>
    ensures rule { IfOk result (λ done. IsTrue done → local (funs_of body.now) own.old.below (active_of body.now active.old) (frames_of body.now own.old.list) ≡ Some (at (active_of body.now active.new) (frames_of body.now own.new.list))) }
    ensures none { IfOk result (λ done. (done ≡ false) → local (funs_of body.now) own.old.below (active_of body.now active.old) (frames_of body.now own.old.list) ≡ None) }
    ensures below { own.new.below ≡ own.old.below }
{
    if step_in_place(alloc, body, active, spare)? {
        return Ok(true);
    }
    let part = mem::replace(active, Active::Ret(Value::Unit));
    match step(alloc, body, part, own)? {
        StepResult::To(next) => {
            *active = next;
            Ok(true)
        }
        StepResult::Stuck => Ok(false),
    }
}

/// One local rule over the frames of a stack, if there is one.
fn turn(
    alloc: Global,
    body: &CodeBody,
    frames: &Frames,
    walk: &mut Walk,
    spare: &mut Spare,
) -> Result<bool, NoMemory>
    requires over { IsOver frames.now.below frames.now.list walk.old }
    ensures over { IfOk result (λ done. IsTrue done → IsOver frames.now.below frames.now.list walk.new) }
    ensures rule { IfOk result (λ done. IsTrue done → walk_step body.now frames.now.below walk.old frames.now.list ≡ Some (walk_term body.now walk.new frames.now.list)) }
    ensures none { IfOk result (λ done. (done ≡ false) → walk_step body.now frames.now.below walk.old frames.now.list ≡ None) }
{
    if !framed(alloc, frames, walk)? {
        return Ok(false);
    }
    step_alone(alloc, body, &mut walk.part, &mut walk.own, spare)
}

/// So many local rules in turn over the frames of a stack, if there are so many.
fn walked(
    alloc: Global,
    body: &CodeBody,
    start: Active,
    frames: &Frames,
    k: u32,
) -> Result<Option<Walk>, NoMemory>
    ensures { IfOk result (λ found. HasWalked body.now frames.now k start found) }
{
    let mut walk = Walk {
        part: start,
        own: Frames::new(alloc, frames.mask()),
        gone: 0,
    };
    let mut spare = Spare::new(alloc);
    for _done in 0..k {
        if !turn(alloc, body, frames, &mut walk, &mut spare)? {
            return Ok(None);
        }
    }
    Ok(Some(walk))
}

impl Stack {
    /// So many local rules in turn, as they come: of an action, and of a value or an exception and the frame round it. Where
    /// there are no so many, or memory runs out, the stack is as before. It takes time by the rules, however many frames
    /// there are.
    pub fn advance(&mut self, alloc: Global, code: &Code, k: u32) -> Result<bool, NoMemory>
        requires stands { MayAdvance (body_of code.now) self.old }
        ensures moves { IfOk result (λ done. IsTrue done → locals (funs_of (body_of code.now)) Unmasked k (term_of (body_of code.now) self.old) ≡ Some (term_of (body_of code.now) self.new)) }
        ensures stuck { IfOk result (λ done. (done ≡ false) → (locals (funs_of (body_of code.now)) Unmasked k (term_of (body_of code.now) self.old) ≡ None) × (self.new ≡ self.old)) }
        ensures err { OnErr result (self.new ≡ self.old) }
    {
        if k == 0 {
            return Ok(true);
        }
        let Some(start) = starting(alloc, self.control())? else {
            return Ok(false);
        };
        let Some(walk) = walked(alloc, body(code), start, self.lent_frames(), k)? else {
            return Ok(false);
        };
        walk.end(self)?;
        Ok(true)
    }
}
