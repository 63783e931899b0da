use crate::tree::action::Block;
use crate::tree::expr::{Expr, Name};
use crate::tree::ty::Written;
use hs_items::Items;

/// `(x :: t)`: a parameter.
#[derive(Debug, Drop)]
pub struct Param {
    pub name: Name,
    pub ty: Written,
}

/// What a definition's result is and what stands behind its `=`.
#[derive(Drop)]
pub enum Body {
    /// `t = e`
    Pure(Written, Expr),
    /// `IO t = A`
    Action(Written, Block),
}

/// A definition, at its name.
#[derive(Drop)]
pub struct Def {
    pub name: Name,
    pub params: Items<Param>,
    pub body: Body,
}

/// A script: its definitions in order.
#[derive(Drop)]
pub struct Script {
    pub defs: Items<Def>,
}
