//! Expressions as numbered nodes.

use hs_base::tree::forms::{BinaryForm, EmptyForm, SideForm, UnaryForm};
use hs_base::{Exn, Txt};
use hs_items::Items;

/// The number of an expression's node in its code.
#[derive(Clone, Copy, Debug, PartialEq, Eq)]
pub struct ExprId(pub usize);

/// One link of a chain of operators.
#[derive(Clone, Copy, Debug, PartialEq, Eq)]
pub struct NodeLink {
    pub form: BinaryForm,
    pub operand: ExprId,
}

/// An expression, with the numbers of its parts, which are lower than its own, and slots in place of names. Where a form
/// binds names, they take the next slots in that part.
#[derive(Debug)]
pub enum Node {
    /// a number
    Int(i64),
    /// a text literal
    Text(Txt),
    /// `True` or `False`
    Bool(bool),
    /// `ThreadKilled` and its like
    Exn(Exn),
    /// `()`
    Unit,
    /// `Nothing` or `[]`
    Empty(EmptyForm),
    /// the value of a name
    Slot(usize),
    /// `Just a`, `not a` and their like
    Unary(UnaryForm, ExprId),
    /// `Left a` or `Right a`
    Side(SideForm, ExprId),
    /// `(a, b)`, `div a b` and their like, and the comparisons
    Binary(BinaryForm, ExprId, ExprId),
    /// a chain of operators that groups from the left
    Chain(ExprId, Items<NodeLink>),
    /// a chain of `:` and `++`, which groups from the right
    Conses(ExprId, Items<NodeLink>),
    /// `[a, b, ..]`
    List(Items<ExprId>),
    /// `if c then a else b`
    If(ExprId, ExprId, ExprId),
    /// `let x = a in b`
    Let(ExprId, ExprId),
    /// `case e of { Nothing -> a; Just x -> b }`
    CaseMaybe(ExprId, ExprId, ExprId),
    /// `case e of { Left x -> a; Right y -> b }`
    CaseEither(ExprId, ExprId, ExprId),
    /// `case e of { [] -> a; x : xs -> b }`
    CaseList(ExprId, ExprId, ExprId),
    /// `case e of { (x, y) -> a }`
    CasePair(ExprId, ExprId),
    /// A call of a pure function, by the node of its body. The arguments are the first slots there.
    Call(ExprId, Items<ExprId>),
}

// Written out, so that it is proved once, here, and not in each function above that lets one go.
impl Drop for Node {
    fn drop(self) {
        match self {
            Node::Int(_) => {}
            Node::Text(_) => {}
            Node::Bool(_) => {}
            Node::Exn(_) => {}
            Node::Unit => {}
            Node::Empty(_) => {}
            Node::Slot(_) => {}
            Node::Unary(_, _) => {}
            Node::Side(_, _) => {}
            Node::Binary(_, _, _) => {}
            Node::Chain(_, _) => {}
            Node::Conses(_, _) => {}
            Node::List(_) => {}
            Node::If(_, _, _) => {}
            Node::Let(_, _) => {}
            Node::CaseMaybe(_, _, _) => {}
            Node::CaseEither(_, _, _) => {}
            Node::CaseList(_, _, _) => {}
            Node::CasePair(_, _) => {}
            Node::Call(_, _) => {}
        }
    }
}
