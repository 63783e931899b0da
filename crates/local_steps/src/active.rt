//! Active parts and frames.

ghost use Rattle.std.specs.Prelude.{◌≡◌, IfOk};

use crate::environments::{Env, Waiting};
use hs_base::{Exn, Mask, NoMemory, Value, Values};
use rules_code::{ActId, Primitive};
use std::alloc::Global;

/// The active part of a thread.
#[derive(Drop)]
pub enum Active {
    /// The thread is to do this action, with these values of its slots.
    Doing(ActId, Env),
    Ret(Value),
    Throw(Exn),
    /// A primitive, with its values.
    Asks(Primitive, Values),
    Forks(ActId, Env),
    /// The next slot takes the unmasked state.
    ForksUnmask(ActId, Env),
}

/// The masking states on both sides of a masking scope.
#[derive(Clone, Copy, Debug, PartialEq, Eq)]
pub struct Masking {
    pub inside: Mask,
    pub outside: Mask,
}

/// A frame round the active part.
#[derive(Drop)]
pub enum Frame {
    /// A value takes the next slot of this action.
    Bind(ActId, Waiting),
    /// This action follows, and the value takes no slot.
    Then(ActId, Env),
    /// An exception takes the next slot of this handler.
    Catch(ActId, Waiting),
    Mask(Masking),
}

impl Frame {
    /// An equal frame, which shares its values: it takes constant time.
    pub fn copy(&self, alloc: Global) -> Result<Frame, NoMemory>
        ensures { IfOk result (λ f. f ≡ self.now) }
    {
        match self {
            Frame::Bind(at, env) => Ok(Frame::Bind(*at, env.copy(alloc)?)),
            Frame::Then(at, env) => Ok(Frame::Then(*at, env.copy(alloc)?)),
            Frame::Catch(at, env) => Ok(Frame::Catch(*at, env.copy(alloc)?)),
            Frame::Mask(masking) => Ok(Frame::Mask(*masking)),
        }
    }
}

/// What follows a step.
#[derive(Drop)]
pub enum StepResult {
    To(Active),
    /// No rule applies.
    Stuck,
}
