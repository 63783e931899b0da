//! A term that is about to move: its part, and its innermost frame where the rule needs it.
ghost use Rattle.std.specs.Prelude.{◌≡◌, ◌<◌, ◌∷◌, [], List, IfOk, IfSome, MatchOption, length, slice_get, Some};
ghost use Rattle.rules_code.specs.declared.code.CodeBody.{CodeBody};
ghost use Rattle.local_steps.specs.declared.active.Frame.{Frame};
ghost use Rattle.local_steps.specs.Machine.{active_of, frame_of, frames_of};
ghost use Rattle.term_graph.specs.Steps.{Begins, FindsBegun, NeedsFrame};

use crate::tables::Terms;
use hs_base::{Mask, NoMemory};
use local_steps::{Active, Frame, Frames};
use std::alloc::Global;

/// A part in few frames of its own, inside the stack of a number.
#[derive(Drop)]
pub struct Begun {
    pub part: Active,
    /// Over the masking state inside the stack.
    pub frames: Frames,
    /// The number of the stack.
    pub outer: u32,
}

/// A frame alone in a masking state.
fn alone(alloc: Global, frame: &Frame, outside: Mask) -> Result<Frames, NoMemory>
    ensures below { IfOk result (λ fs. fs.below ≡ outside) }
    ensures list { IfOk result (λ fs. (b : CodeBody) → frames_of b fs.list ≡ frame_of b frame.now ∷ []) }
{
    let mut frames = Frames::new(alloc, outside);
    match frame.copy(alloc)? {
        Frame::Mask(masking) => frames.enter(masking.inside)?,
        Frame::Bind(at, env) => frames.add(Frame::Bind(at, env))?,
        Frame::Then(at, env) => frames.add(Frame::Then(at, env))?,
        Frame::Catch(at, env) => frames.add(Frame::Catch(at, env))?,
    }
    Ok(frames)
}

/// A value or an exception in the innermost frame of a stack, if there is one.
fn in_innermost(
    alloc: Global,
    terms: &Terms,
    stack: u32,
    part: Active,
) -> Result<Option<Begun>, NoMemory>
    requires { stack < length terms.now.stacks }
    ensures there { IfOk result (λ found. IfSome found (λ x. x.outer < length terms.now.stacks)) }
    ensures is { IfOk result (λ found. (b : CodeBody) (fs : List Frame) → slice_get terms.now.stacks stack ≡ Some fs → NeedsFrame (active_of b part) → MatchOption found (fs ≡ []) (Begins terms.now b (active_of b part) (frames_of b fs))) }
{
    let Some((frame, outer)) = terms.innermost(stack) else {
        return Ok(None);
    };
    let frames = alone(alloc, frame, terms.mask(outer))?;
    Ok(Some(Begun {
        part,
        frames,
        outer,
    }))
}

/// A part in the stack of a number, as its local rule needs it; none where it has no rule.
pub fn begin(
    alloc: Global,
    terms: &Terms,
    stack: u32,
    part: &Active,
) -> Result<Option<Begun>, NoMemory>
    requires { stack < length terms.now.stacks }
    ensures there { IfOk result (λ found. IfSome found (λ x. x.outer < length terms.now.stacks)) }
    ensures is { IfOk result (λ found. (b : CodeBody) (fs : List Frame) → slice_get terms.now.stacks stack ≡ Some fs → FindsBegun terms.now b (active_of b part.now) (frames_of b fs) found) }
{
    match part {
        Active::Doing(at, env) => Ok(Some(Begun {
            part: Active::Doing(*at, env.copy(alloc)?),
            frames: Frames::new(alloc, terms.mask(stack)),
            outer: stack,
        })),
        Active::Ret(value) => in_innermost(alloc, terms, stack, Active::Ret(value.copy(alloc)?)),
        Active::Throw(exn) => in_innermost(alloc, terms, stack, Active::Throw(exn.copy(alloc)?)),
        Active::Asks(_, _) => Ok(None),
        Active::Forks(_, _) => Ok(None),
        Active::ForksUnmask(_, _) => Ok(None),
    }
}
