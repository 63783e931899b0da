//! The checker of types, piece by piece: scopes, the table of functions, the rows of expressions and actions, names and
//! calls, the links of `:` and `++`, and the heads of definitions.
//!
//! A contract sees a fault as the broken rule of `rules_typing` that it names, a type as the tree that it stands for by the
//! checker's table, a scope as its list of names with the last one first, and the table of functions as the list of their
//! heads (`specs/Views`). The one promise: a piece leaves the table, and the scope as its contract says, the type that it gives is
//! the one that `typing_judge` gives, and the kept fault is the least of the one that was kept and of those that `typing_judge`
//! lists. The modules are public for the crates that go down the trees of a script.
#![tactic(auto)]

pub mod act_rows;
pub mod calls;
pub mod checker;
pub mod conses;
pub mod entry;
pub mod fault;
pub mod first;
pub mod funs;
pub mod heads;
pub mod needs;
pub mod parts;
pub mod rows;
pub mod scopes;
pub mod table;

pub use fault::{Form, TypeFault, Want};
