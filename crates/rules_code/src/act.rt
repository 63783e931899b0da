//! Core actions as numbered nodes.

use crate::node::ExprId;
use hs_items::Items;
pub use rules_expansion::Primitive;

/// The number of an action's node in its code.
#[derive(Clone, Copy, Debug, PartialEq, Eq)]
pub struct ActId(pub usize);

/// A core action, with the numbers of its parts. Those of actions are lower than its own. Slots stand in place of names,
/// as in `Node`: where a form binds names, they take the next slots in that part.
#[derive(Debug)]
pub enum Act {
    /// `return e`
    Return(ExprId),
    /// `throwIO e`
    Throw(ExprId),
    /// `let x = e; A`
    Let(ExprId, ActId),
    /// `x <- A; B`
    Bind(ActId, ActId),
    /// `A; B`, where what A gives takes no slot
    Then(ActId, ActId),
    /// `if e then A else B`
    If(ExprId, ActId, ActId),
    /// `case e of { Nothing -> A; Just x -> B }`
    CaseMaybe(ExprId, ActId, ActId),
    /// `case e of { Left x -> A; Right y -> B }`
    CaseEither(ExprId, ActId, ActId),
    /// `case e of { [] -> A; x : y -> B }`
    CaseList(ExprId, ActId, ActId),
    /// `case e of { (x, y) -> A }`
    CasePair(ExprId, ActId),
    /// A call of an action function, by its number in the code. The arguments are the first slots there.
    Call(u32, Items<ExprId>),
    /// a primitive
    Perform(Primitive, Items<ExprId>),
    /// `forkIO A`
    Fork(ActId),
    /// `forkIOWithUnmask r A`
    ForkUnmask(ActId),
    /// `catch A x B`
    Catch(ActId, ActId),
    /// `mask r A`
    Mask(ActId),
    /// `uninterruptibleMask r A`
    UninterruptibleMask(ActId),
    /// `restore r A`, with the slot of r
    Restore(usize, ActId),
}

// Written out, so that it is proved once, here, and not in each function above that lets one go.
impl Drop for Act {
    fn drop(self) {
        match self {
            Act::Return(_) => {}
            Act::Throw(_) => {}
            Act::Let(_, _) => {}
            Act::Bind(_, _) => {}
            Act::Then(_, _) => {}
            Act::If(_, _, _) => {}
            Act::CaseMaybe(_, _, _) => {}
            Act::CaseEither(_, _, _) => {}
            Act::CaseList(_, _, _) => {}
            Act::CasePair(_, _) => {}
            Act::Call(_, _) => {}
            Act::Perform(_, _) => {}
            Act::Fork(_) => {}
            Act::ForkUnmask(_) => {}
            Act::Catch(_, _) => {}
            Act::Mask(_) => {}
            Act::UninterruptibleMask(_) => {}
            Act::Restore(_, _) => {}
        }
    }
}
