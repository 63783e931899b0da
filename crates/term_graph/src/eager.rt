//! Whether a rule is eager, by the term before it and by what it adds.
ghost use Rattle.std.specs.Prelude.{◌≡◌, List, MatchBool, slice_get, Some};
ghost use Rattle.rules_code.specs.declared.code.CodeBody.{CodeBody};
ghost use Rattle.local_steps.specs.declared.active.Frame.{Frame};
ghost use Rattle.local_steps.specs.Machine.{active_of, frame_of, frames_of};
ghost use Rattle.term_graph.specs.Eager as eager;
ghost use Rattle.term_graph.specs.Steps as steps;

use crate::tables::Terms;
use hs_base::Mask;
use local_steps::{Active, Frame};

/// Whether this is no masking.
fn is_unmasked(mask: Mask) -> bool
    ensures { result ≡ eager.is_unmasked mask }
{
    matches!(mask, Mask::Unmasked)
}

/// Whether a part is an exception.
pub fn is_throw(part: &Active) -> bool
    ensures { (b : CodeBody) → result ≡ eager.is_throw (active_of b part.now) }
{
    matches!(part, Active::Throw(_))
}

/// Whether an exception passes a frame, and a thread can receive one inside it where it can outside.
pub fn passes(frame: &Frame) -> bool
    ensures { (b : CodeBody) → result ≡ eager.passes (frame_of b frame.now) }
{
    match frame {
        Frame::Bind(_, _) => true,
        Frame::Then(_, _) => true,
        Frame::Catch(_, _) => false,
        Frame::Mask(masking) => is_unmasked(masking.inside),
    }
}

/// Whether a value leaves the innermost frame eagerly.
fn leaving_is_eager(terms: &Terms, stack: u32) -> bool
    ensures { (b : CodeBody) (fs : List Frame) → slice_get terms.now.stacks stack ≡ Some fs → result ≡ eager.leaving_is_eager (frames_of b fs) }
{
    match terms.innermost(stack) {
        None => false,
        Some((frame, outer)) => {
            let passes = passes(frame);
            let open = is_unmasked(terms.mask(outer));
            passes && open
        }
    }
}

/// Whether a value leaves a frame eagerly; no other part does.
fn leaves_eagerly(terms: &Terms, stack: u32, part: &Active) -> bool
    ensures { (b : CodeBody) (fs : List Frame) → slice_get terms.now.stacks stack ≡ Some fs → result ≡ steps.leaves_eagerly (active_of b part.now) (frames_of b fs) }
{
    match part {
        Active::Ret(_) => leaving_is_eager(terms, stack),
        Active::Doing(_, _) => false,
        Active::Throw(_) => false,
        Active::Asks(_, _) => false,
        Active::Forks(_, _) => false,
        Active::ForksUnmask(_, _) => false,
    }
}

/// Whether the rule of a part in the stack of a number is eager, whatever it adds.
pub fn eager_at_once(terms: &Terms, stack: u32, part: &Active) -> bool
    ensures { (b : CodeBody) (fs : List Frame) → slice_get terms.now.stacks stack ≡ Some fs → result ≡ steps.eager_at_once (active_of b part.now) (frames_of b fs) }
{
    let throws = is_throw(part);
    if throws {
        return true;
    }
    let open = is_unmasked(terms.mask(stack));
    if open {
        leaves_eagerly(terms, stack, part)
    } else {
        true
    }
}

/// Whether a part is an action.
pub fn is_doing(part: &Active) -> bool
    ensures { (b : CodeBody) → MatchBool result (steps.IsDoing (active_of b part.now)) (steps.IsDoing (active_of b part.now) → ⊥) }
{
    matches!(part, Active::Doing(_, _))
}
