//! The code of a script: its expanded definitions as numbered nodes, with slots in place of names.
//!
//! To a contract a `Code` is its `CodeBody`, which keeps that its nodes stand for the expansion of an accepted script
//! (`specs/CodeTrees.antt`, over the slotted expressions of `specs/Slots.antt`). The one promise: each reader answers for
//! every number of its own code. Making a code is left to `hs_core`, running it to `hs_eval` and the machine.
#![tactic(auto)]

mod act;
mod code;
mod node;

pub use act::{Act, ActId, Primitive};
pub use code::{Code, CodeBody, Fun};
pub use node::{ExprId, Node, NodeLink};
