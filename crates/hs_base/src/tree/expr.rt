use crate::pos::Pos;
use crate::text::Txt;
use crate::tree::forms::{EmptyForm, SideForm, UnaryForm};
use crate::tree::ty::Written;
use hs_items::{Boxed, Items};

/// A name where it stands.
#[derive(Debug, Drop)]
pub struct Name {
    pub text: Txt,
    pub pos: Pos,
}

/// The operator of a comparison.
#[derive(Clone, Copy, Debug, PartialEq, Eq)]
pub enum CompareOp {
    /// `==`
    Equal,
    /// `/=`
    Unequal,
    /// `<`
    Less,
    /// `<=`
    AtMost,
    /// `>`
    Greater,
    /// `>=`
    AtLeast,
}

/// An operator that groups from the right.
#[derive(Clone, Copy, Debug, PartialEq, Eq)]
pub enum ConsOp {
    /// `:`
    Cons,
    /// `++`
    Append,
}

/// An operator of a sum.
#[derive(Clone, Copy, Debug, PartialEq, Eq)]
pub enum SumOp {
    /// `+`
    Plus,
    /// `-`
    Minus,
}

/// An atom that is one word.
#[derive(Clone, Copy, Debug, PartialEq, Eq)]
pub enum Constant {
    True,
    False,
    ThreadKilled,
    UserInterrupt,
    DivideByZero,
    Overflow,
}

/// An expression: one variant for each shape. The position is that of the node: its first word or token. A chain has the
/// positions of its operators, and a call that of its name.
#[cycle(expr)]
pub enum Expr {
    /// `if c then a else b`
    If(Pos, Boxed<Expr>, Boxed<Expr>, Boxed<Expr>),
    /// `case e of { arms }`
    Case(Pos, Boxed<Expr>, Boxed<ExprArms>),
    /// `let x = a in b`
    Let(Pos, Name, Boxed<Expr>, Boxed<Expr>),
    /// `a || b || ..`, with at least one link
    Or(Boxed<Expr>, Items<Link>),
    /// `a && b && ..`, with at least one link
    And(Boxed<Expr>, Items<Link>),
    /// `a == b` and the other comparisons, with the position of the operator
    Compare(Boxed<Expr>, CompareOp, Pos, Boxed<Expr>),
    /// `a : b ++ ..`, with at least one link; it groups from the right
    Cons(Boxed<Expr>, Items<ListLink>),
    /// `a + b - ..`, with at least one link; it groups from the left
    Sum(Boxed<Expr>, Items<SumLink>),
    /// `a * b * ..`, with at least one link
    Product(Boxed<Expr>, Items<Link>),
    /// `f a b ..`, or a name alone
    Call(Name, Items<Expr>),
    /// a word, or the prefix `-`, and one part
    Unary(UnaryForm, Pos, Boxed<Expr>),
    /// `Nothing @t` or `[] @t`
    Empty(EmptyForm, Pos, Written),
    /// `Left @s @t a` or `Right @s @t b`
    Side(SideForm, Pos, Written, Written, Boxed<Expr>),
    /// `div a b`
    Div(Pos, Boxed<Expr>, Boxed<Expr>),
    /// `mod a b`
    Mod(Pos, Boxed<Expr>, Boxed<Expr>),
    /// a number
    Int(Pos, i64),
    /// a text literal, with its escapes read
    Text(Pos, Txt),
    /// `True`, `ThreadKilled` and their like
    Constant(Pos, Constant),
    /// `()`
    Unit(Pos),
    /// `(a, b)`
    Pair(Pos, Boxed<Expr>, Boxed<Expr>),
    /// `[a, b, ..]`, with at least one item
    List(Pos, Items<Expr>),
}

// Written out, so that it is proved once, here, and not in each function above that lets one go.
impl Drop for Expr {
    #[cycle(expr_drop)]
    fn drop(self) {
        match self {
            Expr::If(_, _, _, _) => {}
            Expr::Case(_, _, _) => {}
            Expr::Let(_, _, _, _) => {}
            Expr::Or(_, _) => {}
            Expr::And(_, _) => {}
            Expr::Compare(_, _, _, _) => {}
            Expr::Cons(_, _) => {}
            Expr::Sum(_, _) => {}
            Expr::Product(_, _) => {}
            Expr::Call(_, _) => {}
            Expr::Unary(_, _, _) => {}
            Expr::Empty(_, _, _) => {}
            Expr::Side(_, _, _, _, _) => {}
            Expr::Div(_, _, _) => {}
            Expr::Mod(_, _, _) => {}
            Expr::Int(_, _) => {}
            Expr::Text(_, _) => {}
            Expr::Constant(_, _) => {}
            Expr::Unit(_) => {}
            Expr::Pair(_, _, _) => {}
            Expr::List(_, _) => {}
        }
    }
}

/// An operator of one kind and what stands behind it.
#[cycle(expr)]
pub struct Link {
    pub pos: Pos,
    pub operand: Expr,
}

// Written out, so that it is proved once, here, and not in each function above that lets one go.
impl Drop for Link {
    #[cycle(expr_drop)]
    fn drop(self) {
        let Link { pos: _, operand: _ } = self;
    }
}

/// `+` or `-`, and what stands behind it.
#[cycle(expr)]
pub struct SumLink {
    pub op: SumOp,
    pub pos: Pos,
    pub operand: Expr,
}

// Written out, so that it is proved once, here, and not in each function above that lets one go.
impl Drop for SumLink {
    #[cycle(expr_drop)]
    fn drop(self) {
        let SumLink {
            op: _,
            pos: _,
            operand: _,
        } = self;
    }
}

/// `:` or `++`, and what stands behind it.
#[cycle(expr)]
pub struct ListLink {
    pub op: ConsOp,
    pub pos: Pos,
    pub operand: Expr,
}

// Written out, so that it is proved once, here, and not in each function above that lets one go.
impl Drop for ListLink {
    #[cycle(expr_drop)]
    fn drop(self) {
        let ListLink {
            op: _,
            pos: _,
            operand: _,
        } = self;
    }
}

/// The two arms of a `case` among expressions, or its one.
#[cycle(expr)]
pub enum ExprArms {
    /// `Nothing -> a; Just x -> b`
    OfMaybe(Expr, Name, Expr),
    /// `Left x -> a; Right y -> b`
    OfEither(Name, Expr, Name, Expr),
    /// `[] -> a; x : xs -> b`
    OfList(Expr, Name, Name, Expr),
    /// `(x, y) -> a`
    OfPair(Name, Name, Expr),
}

// Written out, so that it is proved once, here, and not in each function above that lets one go.
impl Drop for ExprArms {
    #[cycle(expr_drop)]
    fn drop(self) {
        match self {
            ExprArms::OfMaybe(_, _, _) => {}
            ExprArms::OfEither(_, _, _, _) => {}
            ExprArms::OfList(_, _, _, _) => {}
            ExprArms::OfPair(_, _, _) => {}
        }
    }
}
