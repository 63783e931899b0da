//! What the steps of a template are made of.

use crate::hidden::Hidden;
use crate::primitive::Primitive;

/// An action that stands for other actions.
#[derive(Clone, Copy)]
pub enum Derived {
    MaskOnly,
    UninterruptibleMaskOnly,
    OnException,
    Finally,
    Bracket,
    ModifyMVar,
    Timeout,
    WithAsync,
    Wait,
    Cancel,
    Race,
    Concurrently,
}

/// What an action with one expression comes to.
#[derive(Clone, Copy)]
pub enum UnaryRow {
    /// `return e`
    Return,
    /// a primitive of that expression
    Perform(Primitive),
    /// `throwTo e ThreadKilled`
    Kill,
    /// the template of a form
    Derived(Derived),
}

/// What an action with one block comes to.
#[derive(Clone, Copy)]
pub enum BlockRow {
    /// `forkIO A`
    Fork,
    /// the template of a form
    Derived(Derived),
}

/// A block of a form, in the order in which they are written.
#[derive(Clone, Copy)]
pub enum FormBlock {
    First,
    Second,
    Third,
}

/// A name of a template.
#[derive(Clone, Copy)]
pub enum Binder {
    /// one that the expansion adds
    Own(Hidden),
    /// the one that the form itself binds, as `bracket A x B C` binds `x`
    Given,
}

/// An expression of a template.
#[derive(Clone, Copy)]
pub enum Operand {
    /// the expression of the form itself
    Subject,
    /// `x`
    Read(Binder),
    /// `Just x`
    JustRead(Binder),
    /// `Nothing`
    NoValue,
    /// `x < 0`
    BelowZero(Binder),
    /// `x == 0`
    IsZero(Binder),
    /// `x == y`, of exceptions
    SameExn(Binder, Binder),
    /// `ThreadKilled`
    Killed,
    /// `()`
    Nil,
    /// `Left x`
    LeftRead(Binder),
    /// `Right x`
    RightRead(Binder),
    /// `Right (Left x)`
    RightLeft(Binder),
    /// `Right (Right x)`
    RightRight(Binder),
    /// `Right ()`
    RightNil,
    /// `(x, y)`
    PairRead(Binder, Binder),
    /// `fst x`
    FirstOf(Binder),
    /// `snd x`
    SecondOf(Binder),
}

/// A step of making a template's nodes, parts before wholes: expressions and actions wait on a stack each, and the names
/// that are bound stand in a scope. A step takes its operand or its parts off, the last one first, and puts its own node
/// on.
#[derive(Clone, Copy)]
pub enum Step {
    /// the nodes of a block of the form
    Hole(FormBlock),
    /// a name enters the scope
    Under(Binder),
    /// the last name leaves it
    Off,
    /// an expression
    Push(Operand),
    /// `return e`
    Return,
    /// `throwIO e`
    Throw,
    /// `let x = e; A`
    Let,
    /// `x <- A; B`
    Bind,
    /// `A; B`
    Then,
    /// `if e then A else B`
    If,
    /// `case e of { Left x -> A; Right y -> B }`
    CaseEither,
    /// a primitive without operands
    Perform(Primitive),
    /// a primitive with one operand
    PerformOne(Primitive),
    /// a primitive with two operands
    PerformTwo(Primitive),
    /// `forkIO A`
    Fork,
    /// `forkIOWithUnmask r A`
    ForkUnmask,
    /// `catch A x B`
    Catch,
    /// `mask r A`
    Mask,
    /// `uninterruptibleMask r A`
    MaskHard,
    /// `restore r A`
    Restore(Binder),
}
