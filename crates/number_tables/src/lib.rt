//! Tables that only grow, in which each thing has a number.
//!
//! To a contract a `Table` is the list of its things, and the number of one is its place. A thing is found by its key, a list
//! of numbers that its type says (`Keyed`).
//!
//! Its promise: no two things of a table have one key, and a number that was given stays what it is. What a key says of its
//! thing is left to the crate that has the type.
//!
//! A part with a head of its own: `value_keys`, keys of values, lists of numbers by which a table finds them.
#![tactic(auto)]

mod keyed;
mod table;
pub mod value_keys;

pub use keyed::Keyed;
pub use table::Table;
