use crate::pos::Pos;
use crate::tree::expr::{Expr, Name};
use crate::tree::forms::{
    BareAction, BinaryAction, BlockAction, GuardAction, MaskingAction, UnaryAction,
};
use crate::tree::ty::Written;
use hs_items::{Boxed, Items};

/// `{ s; s; .. a }`: statements, and the action whose result is the block's.
#[cycle(action)]
pub struct Block {
    pub stmts: Items<Stmt>,
    pub last: Boxed<Action>,
}

// Written out, so that it is proved once, here, and not in each function above that lets one go.
impl Drop for Block {
    #[cycle(action_drop)]
    fn drop(self) {
        let Block { stmts: _, last: _ } = self;
    }
}

/// A statement of a block.
#[cycle(action)]
pub enum Stmt {
    /// `x <- a`
    Bind(Name, Action),
    /// `let x = e`, with the name's position
    Let(Name, Expr),
    /// `a`
    Do(Action),
}

// Written out, so that it is proved once, here, and not in each function above that lets one go.
impl Drop for Stmt {
    #[cycle(action_drop)]
    fn drop(self) {
        match self {
            Stmt::Bind(_, _) => {}
            Stmt::Let(_, _) => {}
            Stmt::Do(_) => {}
        }
    }
}

/// An action: one variant for each shape, in which a word says which of its forms it is. The position is that of the
/// node: its first word. A call has that of its name.
#[cycle(action)]
pub enum Action {
    /// a word alone
    Bare(BareAction, Pos),
    /// a word and an expression
    Unary(UnaryAction, Pos, Expr),
    /// a word and two expressions
    Binary(BinaryAction, Pos, Expr, Expr),
    /// `throwIO @t a`
    ThrowIo(Pos, Written, Expr),
    /// `newEmptyMVar @t`
    NewEmptyMVar(Pos, Written),
    /// `f a b ..`
    Call(Name, Items<Expr>),
    /// `if c then A else B`
    If(Pos, Expr, Block, Block),
    /// `case e of { arms }`
    Case(Pos, Expr, Boxed<BlockArms>),
    /// `modifyMVar_ m x B`
    ModifyMVar(Pos, Expr, Name, Block),
    /// a word and a block
    Scoped(BlockAction, Pos, Block),
    /// a word, a masking name and the block in which it stands
    Masking(MaskingAction, Pos, Name, Block),
    /// `restore r A`
    Restore(Pos, Name, Block),
    /// `catch A e B`
    Catch(Pos, Block, Name, Block),
    /// a word and two blocks
    Guard(GuardAction, Pos, Block, Block),
    /// `bracket A x B C`
    Bracket(Pos, Block, Name, Block, Block),
    /// `timeout n A`
    Timeout(Pos, Expr, Block),
    /// `withAsync A a B`
    WithAsync(Pos, Block, Name, Block),
}

// Written out, so that it is proved once, here, and not in each function above that lets one go.
impl Drop for Action {
    #[cycle(action_drop)]
    fn drop(self) {
        match self {
            Action::Bare(_, _) => {}
            Action::Unary(_, _, _) => {}
            Action::Binary(_, _, _, _) => {}
            Action::ThrowIo(_, _, _) => {}
            Action::NewEmptyMVar(_, _) => {}
            Action::Call(_, _) => {}
            Action::If(_, _, _, _) => {}
            Action::Case(_, _, _) => {}
            Action::ModifyMVar(_, _, _, _) => {}
            Action::Scoped(_, _, _) => {}
            Action::Masking(_, _, _, _) => {}
            Action::Restore(_, _, _) => {}
            Action::Catch(_, _, _, _) => {}
            Action::Guard(_, _, _, _) => {}
            Action::Bracket(_, _, _, _, _) => {}
            Action::Timeout(_, _, _) => {}
            Action::WithAsync(_, _, _, _) => {}
        }
    }
}

/// The two arms of a `case` among actions, or its one.
#[cycle(action)]
pub enum BlockArms {
    /// `Nothing -> A; Just x -> B`
    OfMaybe(Block, Name, Block),
    /// `Left x -> A; Right y -> B`
    OfEither(Name, Block, Name, Block),
    /// `[] -> A; x : xs -> B`
    OfList(Block, Name, Name, Block),
    /// `(x, y) -> A`
    OfPair(Name, Name, Block),
}

// Written out, so that it is proved once, here, and not in each function above that lets one go.
impl Drop for BlockArms {
    #[cycle(action_drop)]
    fn drop(self) {
        match self {
            BlockArms::OfMaybe(_, _, _) => {}
            BlockArms::OfEither(_, _, _, _) => {}
            BlockArms::OfList(_, _, _, _) => {}
            BlockArms::OfPair(_, _, _) => {}
        }
    }
}
