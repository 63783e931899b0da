//! The numbered nodes of expressions.
//!
//! To a contract an `Emitter` is the list of its nodes and the names of its scope. The one promise: `Emitter::expr` adds
//! the nodes of an expression, its parts before itself, and answers the number of the last; `proofs/Emitted.antt` says
//! that this node stands for the expression with slots. Each name takes the slot that the definition gives it, and a
//! call names the body of the first function of that name, which `Places` finds through an index, in time by the
//! logarithm of their number. A scope also holds the names that expansions add, which no script can write; actions and
//! whole scripts are expanded above.
//! It is a crate apart from `hs_core` for the prover's cost alone.
#![tactic(auto)]

mod emitter;
mod expr;
pub mod names;
mod places;

pub use emitter::Emitter;
pub use places::{Place, Places};
