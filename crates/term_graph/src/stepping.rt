//! One local rule of a term.
ghost use Rattle.std.specs.Prelude.{◌≡◌, ◌++◌, ◌<◌, not, ◌&&◌, ℕ, List, IfOk, IfSome, MatchOption, length, slice_get, Some, None};
ghost use Rattle.hs_base.specs.declared.mask.Mask.TheVariants.{Unmasked};
ghost use Rattle.rules_code.specs.declared.code.CodeBody.{CodeBody};
ghost use Rattle.slot_laws.specs.SlotRules.{SlotPart, SlotFrame, SlotTerm, local};
ghost use Rattle.local_steps.specs.declared.active.Frame.{Frame};
ghost use Rattle.local_steps.specs.Machine.{active_of, frames_of, funs_of};
ghost use Rattle.term_graph.specs.tables.Numbered.{term_in, HasGrown, IsStack};
ghost use Rattle.term_graph.specs.Eager.{passes_all};
ghost use Rattle.term_graph.specs.Steps.{Begins, Lands, Moves, Steps};

use crate::begun::{Begun, begin};
use crate::eager::{eager_at_once, is_doing, is_throw, passes};
use crate::tables::Terms;
use hs_base::NoMemory;
use local_steps::{Active, Frames, StepResult};
use rules_code::CodeBody;
use std::alloc::Global;

/// Where a term goes by a local rule.
#[derive(Clone, Copy, Debug)]
pub struct LocalStep {
    /// The number of the term that it leaves.
    pub term: u32,
    /// Whether an exception from outside would come to the same before the rule and after it.
    pub eager: bool,
}

/// Frames with a number, and whether an exception passes each of them.
#[derive(Clone, Copy)]
pub struct Pushed {
    pub stack: u32,
    pub passes: bool,
}

/// Where a part goes by a local rule.
#[derive(Clone, Copy)]
pub struct Moved {
    /// The number of the term that it leaves.
    pub term: u32,
    /// Whether the step throws nothing, and an exception passes the frames that it adds.
    pub adds: bool,
}

/// The number of these frames inside the stack of a number. Where memory runs out some of them may have got a number.
#[tactic(auto, using(crate::proofs::Growth::grown_same, crate::proofs::Growth::grown_on, crate::proofs::Growth::pushed_more))]
fn push_all(
    alloc: Global,
    terms: &mut Terms,
    frames: &mut Frames,
    outer: u32,
) -> Result<Pushed, NoMemory>
    requires { outer < length terms.old.stacks }
    ensures is { IfOk result (λ p. (b : CodeBody) (fs : List Frame) → slice_get terms.old.stacks outer ≡ Some fs → IsStack terms.new b p.stack (frames_of b frames.old.list ++ frames_of b fs)) }
    ensures passes { IfOk result (λ p. (b : CodeBody) → p.passes ≡ passes_all (frames_of b frames.old.list)) }
    ensures there { IfOk result (λ p. p.stack < length terms.new.stacks) }
    ensures grows { HasGrown terms.old terms.new }
{
    match frames.pop() {
        None => Ok(Pushed {
            stack: outer,
            passes: true,
        }),
        Some(frame) => {
            let passes = passes(&frame);
            let rest = push_all(alloc, terms, frames, outer)?;
            let stack = terms.push(alloc, frame, rest.stack)?;
            Ok(Pushed {
                stack,
                passes: passes && rest.passes,
            })
        }
    }
}

/// Whether a step throws nothing, and an exception passes the frames that it adds.
fn adds_eagerly(throws: bool, passes: bool) -> bool
    ensures { result ≡ (not throws && passes) }
{
    !throws && passes
}

/// A part in frames of its own over the stack of a number, as a term with a number.
fn land(
    alloc: Global,
    terms: &mut Terms,
    next: Active,
    frames: Frames,
    outer: u32,
) -> Result<Moved, NoMemory>
    requires { outer < length terms.old.stacks }
    ensures is { IfOk result (λ m. (b : CodeBody) (fs : List Frame) → slice_get terms.old.stacks outer ≡ Some fs → Lands terms.new b (active_of b next) (frames_of b frames.list) (frames_of b fs) m) }
    ensures there { IfOk result (λ m. m.term < length terms.new.terms) }
    ensures grows { HasGrown terms.old terms.new }
{
    let mut frames = frames;
    let throws = is_throw(&next);
    let pushed = push_all(alloc, terms, &mut frames, outer)?;
    let adds = adds_eagerly(throws, pushed.passes);
    let term = terms.number(alloc, next, pushed.stack)?;
    Ok(Moved { term, adds })
}

/// The local rule of a part that was begun.
#[tactic(auto, using(crate::proofs::Going::stuck_on, crate::proofs::Going::lands_on))]
fn go_on(
    alloc: Global,
    body: &CodeBody,
    terms: &mut Terms,
    begun: Begun,
) -> Result<Option<Moved>, NoMemory>
    requires { begun.outer < length terms.old.stacks }
    ensures is { IfOk result (λ found. (p : SlotPart) (fs : List SlotFrame) → Begins terms.old body.now p fs begun → MatchOption found (local (funs_of body.now) Unmasked p fs ≡ None) (Moves terms.new body.now p fs)) }
    ensures there { IfOk result (λ found. IfSome found (λ m. m.term < length terms.new.terms)) }
    ensures grows { HasGrown terms.old terms.new }
{
    let Begun {
        part,
        frames,
        outer,
    } = begun;
    let mut frames = frames;
    match local_steps::step(alloc, body, part, &mut frames)? {
        StepResult::Stuck => Ok(None),
        StepResult::To(next) => {
            let moved = land(alloc, terms, next, frames, outer)?;
            Ok(Some(moved))
        }
    }
}

/// The local rule of the term of a number, if there is one. Where memory runs out some terms and stacks may have got numbers.
pub fn step(
    alloc: Global,
    body: &CodeBody,
    terms: &mut Terms,
    number: u32,
) -> Result<Option<LocalStep>, NoMemory>
    requires { number < length terms.old.terms }
    ensures is { IfOk result (λ found. (st : SlotTerm) → term_in terms.old body.now number ≡ Some st → MatchOption found (local (funs_of body.now) Unmasked st.part st.frames ≡ None) (Steps terms.new body.now st)) }
    ensures there { IfOk result (λ found. IfSome found (λ s. s.term < length terms.new.terms)) }
    ensures grows { HasGrown terms.old terms.new }
{
    let Some(term) = terms.get(number) else {
        unreachable!();
    };
    let stack = term.stack;
    let at_once = eager_at_once(terms, stack, &term.part);
    let doing = is_doing(&term.part);
    let Some(begun) = begin(alloc, terms, stack, &term.part)? else {
        return Ok(None);
    };
    let Some(moved) = go_on(alloc, body, terms, begun)? else {
        return Ok(None);
    };
    let Moved { term, adds } = moved;
    Ok(Some(LocalStep {
        term,
        eager: at_once || doing && adds,
    }))
}
