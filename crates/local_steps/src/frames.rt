ghost use Rattle.std.specs.Prelude.{◌≡◌, ◌≤◌, ◌+◌, ◌++◌, ◌∷◌, [], List, drop, length, ◌↔◌, IsTrue, IfOk, OnOk, OnErr, IfErr, MatchOption};
ghost use Rattle.hs_base.specs.Masks.{join_of};
ghost use Rattle.hs_base.specs.declared.mask.Mask.{Mask};
ghost use Rattle.hs_base.specs.declared.mask.Mask.TheVariants.{Masked};
ghost use Rattle.local_steps.specs.declared.active.Frame.{Frame};
ghost use Rattle.local_steps.specs.declared.active.Frame.TheVariants as kind;
ghost use Rattle.local_steps.specs.Frames.{framed, mask_inside, IsOneFrame, IsScope, IsHandler, IsIn, IsNested, masking};

use crate::active::{Frame, Masking};
use crate::environments::Waiting;
use hs_base::{Mask, NoMemory};
use rules_code::ActId;
use std::alloc::Global;
use std::marker::Model;

/// The frames round an active part, over a masking state. There are less than 2^32.
#[derive(Drop)]
pub struct Frames {
    /// The outermost first.
    frames: Vec<Frame>,
    /// The masking state inside all of them.
    mask: Mask,
    /// The masking state that they stand in.
    below: Mask,
}

impl Model for Frames {
    ghost use Rattle.std.specs.Prelude.{reverse};
    ghost use Rattle.std.specs.Coded.{codes};
    ghost use Rattle.hs_base.specs.contracts.value.Value as e;
    ghost use Rattle.local_steps.specs.Frames.{Framed, framed, AreFrames};

    ghost Value = { Framed };

    ghost coded = { Prim.hlevel (codes, e.the_row.coded) };

    ghost view = { λ fs. framed fs.below (reverse fs.frames.items) };

    ghost invariant = { λ fs. AreFrames fs.below fs.mask (reverse fs.frames.items) };
}

/// The masking state inside a frame, by the one outside of it.
fn state_inside(frame: &Frame, outside: Mask) -> Mask
    ensures { (s : Mask) (fs : List Frame) → outside ≡ mask_inside s fs → result ≡ mask_inside s (frame.now ∷ fs) }
{
    match frame {
        Frame::Mask(masking) => masking.inside,
        _ => outside,
    }
}

/// The masking state outside of a frame, by the one inside.
fn state_outside(frame: &Frame, inside: Mask) -> Mask
    ensures { (s : Mask) (fs : List Frame) → IsNested s (frame.now ∷ fs) → inside ≡ mask_inside s (frame.now ∷ fs) → result ≡ mask_inside s fs }
{
    match frame {
        Frame::Mask(masking) => masking.outside,
        _ => inside,
    }
}

impl Frames {
    /// No frames, in a masking state.
    pub fn new(alloc: Global, below: Mask) -> Frames
        ensures { result ≡ framed below [] }
    {
        Frames {
            frames: Vec::new(alloc),
            mask: below,
            below,
        }
    }

    /// The masking state inside the frames.
    pub fn mask(&self) -> Mask
        ensures { result ≡ mask_inside self.now.below self.now.list }
    {
        self.mask
    }

    /// How many frames there are.
    pub fn len(&self) -> u32
        ensures { result ≡ length self.now.list }
    {
        self.frames.len() as u32
    }

    pub fn is_empty(&self) -> bool
        ensures { IsTrue result ↔ (self.now.list ≡ []) }
    {
        self.frames.is_empty()
    }

    /// Puts a frame that is no masking scope inside the others. Where memory runs out they are as before.
    #[tactic(auto, using(crate::proofs::Nesting::in_unless_scope))]
    pub fn add(&mut self, frame: Frame) -> Result<(), NoMemory>
        requires { IsScope frame → ⊥ }
        ensures ok { OnOk result (self.new ≡ framed self.old.below (frame ∷ self.old.list)) }
        ensures err { OnErr result (self.new ≡ self.old) }
    {
        self.push(frame)
    }

    /// Enters a masking scope inside the frames. Where memory runs out they are as before.
    pub fn enter(&mut self, inside: Mask) -> Result<(), NoMemory>
        ensures ok { OnOk result (self.new ≡ framed self.old.below (kind.Mask (masking inside (mask_inside self.old.below self.old.list)) ∷ self.old.list)) }
        ensures err { OnErr result (self.new ≡ self.old) }
    {
        let outside = self.mask;
        self.push(Frame::Mask(Masking { inside, outside }))
    }

    /// Takes the innermost frame off.
    pub fn pop(&mut self) -> Option<Frame>
        ensures { MatchOption result ((self.old.list ≡ []) × (self.new ≡ self.old)) (λ f. (self.old.list ≡ f ∷ self.new.list) × (self.new.below ≡ self.old.below)) }
    {
        let frame = self.frames.pop()?;
        self.mask = state_outside(&frame, self.mask);
        Some(frame)
    }

    /// Whether the innermost frame is a handler.
    pub fn has_handler(&self) -> bool
        ensures { IsTrue result ↔ IsHandler self.now.list }
    {
        match self.frames.last() {
            Some(Frame::Catch(_, _)) => true,
            _ => false,
        }
    }

    /// Puts the masking scope in which a handler runs in the place of the handler's frame, and hands the handler out. It takes
    /// no memory.
    pub fn handle(&mut self) -> (ActId, Waiting)
        requires { IsHandler self.old.list }
        ensures handler { self.old.list ≡ kind.Catch result.0 result.1 ∷ drop 1 self.old.list }
        ensures scope { self.new ≡ framed self.old.below (kind.Mask (masking (join_of Masked (mask_inside self.old.below (drop 1 self.old.list))) (mask_inside self.old.below (drop 1 self.old.list))) ∷ drop 1 self.old.list) }
    {
        match self.frames.pop() {
            Some(Frame::Catch(at, env)) => {
                let outside = self.mask;
                let inside = Mask::Masked.join(outside);
                self.frames
                    .push_reserved(Frame::Mask(Masking { inside, outside }));
                self.mask = inside;
                (at, env)
            }
            _ => unreachable!(),
        }
    }

    /// Puts frames that were made in the state inside these inside them. Where memory runs out both are as before.
    #[tactic(auto, using(crate::proofs::Nesting::frames_joined))]
    pub fn append(&mut self, inner: Frames) -> Result<(), Frames>
        requires { inner.below ≡ mask_inside self.old.below self.old.list }
        ensures ok { OnOk result (self.new ≡ framed self.old.below (inner.list ++ self.old.list)) }
        ensures err { OnErr result (self.new ≡ self.old) }
        ensures back { IfErr result (λ fs. fs ≡ inner) }
    {
        let mut inner = inner;
        let few = self.frames.len() + inner.frames.len() <= u32::MAX as usize;
        if !few || self.frames.append(&mut inner.frames).is_err() {
            return Err(inner);
        }
        self.mask = inner.mask;
        Ok(())
    }

    /// A copy of the frame that has so many others inside of it, alone in the masking state outside of it; none where there
    /// are no so many. The masking state inside of it is handed in, so nothing is looked for.
    pub fn alone(&self, alloc: Global, inner: u32, inside: Mask) -> Result<Option<Frames>, NoMemory>
        requires { inside ≡ mask_inside self.now.below (drop inner self.now.list) }
        ensures { IfOk result (λ found. MatchOption found (drop inner self.now.list ≡ []) (IsOneFrame self.now inner)) }
    {
        let inner = inner as usize;
        let count = self.frames.len();
        if count <= inner {
            return Ok(None);
        }
        let frame = self.frames[count - 1 - inner].copy(alloc)?;
        let below = state_outside(&frame, inside);
        let mut frames = Vec::with_capacity(alloc, 1)?;
        frames.push_reserved(frame);
        Ok(Some(Frames {
            frames,
            mask: inside,
            below,
        }))
    }

    /// Puts frames that were made in the state outside of the innermost `gone` in their place. Where memory runs out these
    /// are as before.
    pub fn replace(&mut self, gone: u32, inner: Frames) -> Result<(), NoMemory>
        requires gone { gone ≤ length self.old.list }
        requires fits { inner.below ≡ mask_inside self.old.below (drop gone self.old.list) }
        ensures ok { OnOk result (self.new ≡ framed self.old.below (inner.list ++ drop gone self.old.list)) }
        ensures err { OnErr result (self.new ≡ self.old) }
    {
        let mut inner = inner;
        let gone = gone as usize;
        let kept = self.frames.len() - gone;
        let more = inner.frames.len();
        if kept + more > u32::MAX as usize {
            return Err(NoMemory);
        }
        self.frames.reserve(more.saturating_sub(gone))?;
        self.frames.truncate(kept);
        if self.frames.append(&mut inner.frames).is_err() {
            unreachable!();
        }
        self.mask = inner.mask;
        Ok(())
    }

    /// Puts a frame inside the others.
    fn push(&mut self, frame: Frame) -> Result<(), NoMemory>
        requires { IsIn (mask_inside self.old.below self.old.list) frame }
        ensures ok { OnOk result (self.new ≡ framed self.old.below (frame ∷ self.old.list)) }
        ensures err { OnErr result (self.new ≡ self.old) }
    {
        if self.frames.len() >= u32::MAX as usize {
            return Err(NoMemory);
        }
        let inside = state_inside(&frame, self.mask);
        if self.frames.push(frame).is_err() {
            return Err(NoMemory);
        }
        self.mask = inside;
        Ok(())
    }
}
