//! A list and a box that contracts see as what they hold.
//!
//! A syntax tree or a value made of `Items` and `Boxed` is plain data to a contract: two trees that
//! are equal are equal values, with no pointer in them. `specs/formers` says that a type may reach
//! itself through either of them.
#![tactic(auto)]

mod boxed;
mod items;
mod shared;

pub use boxed::Boxed;
pub use items::Items;
pub use shared::Shared;
