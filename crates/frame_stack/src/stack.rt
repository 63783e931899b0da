ghost use Rattle.std.specs.Prelude.{◌≡◌, ◌≤◌, ◌++◌, ◌∷◌, [], drop, length, OnOk, OnErr, IfOk, IfErr, Some};
ghost use Rattle.hs_base.specs.declared.mask.Mask.TheVariants.{Unmasked};
ghost use Rattle.rules_code.specs.declared.code.CodeBody.{CodeBody};
ghost use Rattle.slot_laws.specs.SlotRules.{mask_from, local, locals};
ghost use Rattle.local_steps.specs.declared.active.Frame.TheVariants as frame;
ghost use Rattle.local_steps.specs.Frames.{framed, masking, mask_inside};
ghost use Rattle.local_steps.specs.Machine.{frames_of, funs_of};
ghost use Rattle.frame_stack.specs.declared.control.Control.TheVariants as control;
ghost use Rattle.frame_stack.specs.Parts.{part_of, stacked, term_of, IsOp, IsThrow, Meets};

use crate::control::Control;
use crate::sliced::Slice;
use hs_base::{Exn, Mask, NoMemory, Value};
use local_steps::{Active, Frames, StepResult, meet_exception, meet_value};
use std::alloc::Global;
use std::marker::Model;
use std::mem;

/// A thread's control and its frames. It stands for a term of the thread.
pub struct Stack {
    control: Control,
    frames: Frames,
}

// Written out, so that it is proved once, here, and not in each function above that lets one go.
impl Drop for Stack {
    fn drop(self) {
        let Stack {
            control: _,
            frames: _,
        } = self;
    }
}

impl Model for Stack {
    ghost use Rattle.std.specs.Prelude.{◌≡◌};
    ghost use Rattle.std.specs.Coded.{codes};
    ghost use Rattle.hs_base.specs.contracts.value.Value as e;
    ghost use Rattle.hs_base.specs.declared.mask.Mask.TheVariants.{Unmasked};
    ghost use Rattle.frame_stack.specs.Parts.{Stacked, stacked};

    ghost Value = { Stacked };

    ghost coded = { Prim.hlevel (codes, e.the_row.coded) };

    ghost view = { λ s. stacked s.control s.frames.list };

    ghost invariant = { λ s. s.frames.below ≡ Unmasked };
}

impl Stack {
    /// The bare control.
    pub fn first(alloc: Global, start: Control) -> Stack
        ensures { result ≡ stacked start [] }
    {
        Stack {
            control: start,
            frames: Frames::new(alloc, Mask::Unmasked),
        }
    }

    /// The control in one masking scope.
    pub fn child(alloc: Global, mask: Mask, start: Control) -> Result<Stack, NoMemory>
        ensures { IfOk result (λ s. s ≡ stacked start (frame.Mask (masking mask Unmasked) ∷ [])) }
    {
        let mut frames = Frames::new(alloc, Mask::Unmasked);
        frames.enter(mask)?;
        Ok(Stack {
            control: start,
            frames,
        })
    }

    /// The masking state at the control. It takes no memory.
    pub fn mask(&self) -> Mask
        ensures inside { result ≡ mask_inside Unmasked self.now.frames }
        ensures state { (b : CodeBody) → result ≡ mask_from Unmasked (frames_of b self.now.frames) }
    {
        self.frames.mask()
    }

    pub fn control(&self) -> &Control
        ensures { result.now ≡ self.now.control }
    {
        &self.control
    }

    /// The frames, which stand in the unmasked state.
    pub(crate) fn lent_frames(&self) -> &Frames
        ensures { result.now ≡ framed Unmasked self.now.frames }
    {
        &self.frames
    }

    /// How many frames there are.
    pub fn frames(&self) -> u32
        ensures { result ≡ length self.now.frames }
    {
        self.frames.len()
    }

    /// Moves by the rules of a slice that starts with this control, in this masking state. Where memory runs out the slice is
    /// handed back and the stack is as before.
    pub fn accept(&mut self, slice: Slice) -> Result<(), Slice>
        requires start { slice.start ≡ self.old.control }
        requires mask { slice.mask ≡ mask_inside Unmasked self.old.frames }
        ensures end { OnOk result ((self.new.control ≡ slice.end) × (self.new.frames ≡ slice.pushed.list ++ self.old.frames)) }
        ensures moves { OnOk result (∥ locals (funs_of slice.of.value) Unmasked slice.steps (term_of slice.of.value self.old) ≡ Some (term_of slice.of.value self.new) ∥₁) }
        ensures err { OnErr result (self.new ≡ self.old) }
        ensures back { IfErr result (λ s. s ≡ slice) }
    {
        let Slice {
            ticket,
            tid,
            start,
            mask,
            pushed,
            end,
            steps,
            of,
        } = slice;
        match self.frames.append(pushed) {
            Ok(()) => {
                self.put(end);
                Ok(())
            }
            Err(pushed) => Err(Slice {
                ticket,
                tid,
                start,
                mask,
                pushed,
                end,
                steps,
                of,
            }),
        }
    }

    /// One local rule, where the control is a value or an exception in a frame. It takes no memory.
    pub fn pop_step(&mut self)
        requires { Meets self.old }
        ensures { (b : CodeBody) → local (funs_of b) Unmasked (part_of b self.old.control) (frames_of b self.old.frames) ≡ Some (term_of b self.new) }
    {
        let next = match self.replace(Control::Ret(Value::Unit)) {
            Control::Ret(value) => meet_value(value, &mut self.frames),
            Control::Throw(exn) => meet_exception(exn, &mut self.frames),
            _ => unreachable!(),
        };
        match next {
            StepResult::To(Active::Doing(i, env)) => self.control = Control::Doing(i, env),
            StepResult::To(Active::Ret(value)) => self.control = Control::Ret(value),
            StepResult::To(Active::Throw(exn)) => self.control = Control::Throw(exn),
            // No frame leads to an operation.
            _ => {}
        }
    }

    /// Puts a control in another's place, and frames that were made in the state outside of the innermost `gone` in theirs.
    /// Where memory runs out the stack is as before.
    pub(crate) fn put_over(
        &mut self,
        end: Control,
        gone: u32,
        inner: Frames,
    ) -> Result<(), NoMemory>
        requires gone { gone ≤ length self.old.frames }
        requires fits { inner.below ≡ mask_inside Unmasked (drop gone self.old.frames) }
        ensures ok { OnOk result (self.new ≡ stacked end (inner.list ++ drop gone self.old.frames)) }
        ensures err { OnErr result (self.new ≡ self.old) }
    {
        self.frames.replace(gone, inner)?;
        self.control = end;
        Ok(())
    }

    /// Puts a value in an operation's place. It takes no memory.
    pub fn answer(&mut self, v: Value)
        requires { IsOp self.old.control }
        ensures { self.new ≡ stacked (control.Ret v) self.old.frames }
    {
        self.control = Control::Ret(v);
    }

    /// Puts an exception in the place of a control that is none. It takes no memory.
    pub fn receive(&mut self, e: Exn)
        requires { IsThrow self.old.control → ⊥ }
        ensures { self.new ≡ stacked (control.Throw e) self.old.frames }
    {
        self.control = Control::Throw(e);
    }

    /// Puts a control in another's place.
    fn put(&mut self, control: Control)
        ensures { self.new ≡ stacked control self.old.frames }
    {
        self.control = control;
    }

    /// Puts a control in another's place and hands that back.
    fn replace(&mut self, with: Control) -> Control
        ensures old { result ≡ self.old.control }
        ensures new { self.new ≡ stacked with self.old.frames }
    {
        mem::replace(&mut self.control, with)
    }
}
