//! The words of the forms of one shape, so that a tree has one variant, and a table one row, for each shape.

/// An expression with one part.
#[derive(Clone, Copy, Debug, PartialEq, Eq)]
pub enum UnaryForm {
    Just,
    ErrorCall,
    Not,
    Fst,
    Snd,
    Show,
    Negate,
}

/// An expression with two parts, or one link of a chain.
#[derive(Clone, Copy, Debug, PartialEq, Eq)]
pub enum BinaryForm {
    Pair,
    Div,
    Mod,
    Equal,
    Unequal,
    Less,
    AtMost,
    Greater,
    AtLeast,
    Or,
    And,
    Plus,
    Minus,
    Times,
    Cons,
    Append,
}

/// `Nothing @t` or `[] @t`.
#[derive(Clone, Copy, Debug, PartialEq, Eq)]
pub enum EmptyForm {
    Nothing,
    EmptyList,
}

/// `Left @s @t a` or `Right @s @t b`.
#[derive(Clone, Copy, Debug, PartialEq, Eq)]
pub enum SideForm {
    Left,
    Right,
}

/// An action with no part.
#[derive(Clone, Copy, Debug, PartialEq, Eq)]
pub enum BareAction {
    MyThreadId,
    ClockMicros,
    GetMaskingState,
}

/// An action with one expression.
#[derive(Clone, Copy, Debug, PartialEq, Eq)]
pub enum UnaryAction {
    Return,
    PutStr,
    PutStrLn,
    HPutStrLn,
    NewMVar,
    TakeMVar,
    ReadMVar,
    TryTakeMVar,
    KillThread,
    ThreadDelay,
    Wait,
    Cancel,
}

/// An action with two expressions.
#[derive(Clone, Copy, Debug, PartialEq, Eq)]
pub enum BinaryAction {
    PutMVar,
    TryPutMVar,
    ThrowTo,
}

/// An action with one block.
#[derive(Clone, Copy, Debug, PartialEq, Eq)]
pub enum BlockAction {
    ForkIo,
    MaskOnly,
    UninterruptibleMaskOnly,
}

/// An action with a block in which a masking name is bound.
#[derive(Clone, Copy, Debug, PartialEq, Eq)]
pub enum MaskingAction {
    ForkIoWithUnmask,
    Mask,
    UninterruptibleMask,
}

/// An action with two blocks.
#[derive(Clone, Copy, Debug, PartialEq, Eq)]
pub enum GuardAction {
    OnException,
    Finally,
    Race,
    Concurrently,
}
