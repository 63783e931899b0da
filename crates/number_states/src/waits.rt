//! Who waits, in numbers: cells with their lines, exceptions in flight, and sleepers.
//!
//! To a contract a `NumberCell` is one cell of `rules_waiting` (`OneCell`) whose values are numbers, and exceptions in flight
//! and sleepers are plain lists. What the numbers stand for is left to what stands above: the laws say that each change commutes
//! with it.
//!
//! Its promise: each call on a cell is exactly that of `OneCell`, each change of a list is what `rules_waiting` (`Waiting`) says
//! of it, copies are equal, and no key begins another, so what has one key is equal. The lists are short, so each call may go
//! along all of one.

mod cells;
mod flight;
mod keys;
pub mod laws;
mod lines;
mod places;
mod sleepers;

pub use cells::{NumberCell, copy_cells};
pub use flight::{Thrown, copy_flight, first_to, throwers_to, withdraw};
pub use keys::{put_cell, put_cells, put_flight, put_sleepers};
pub use places::{Answer, Place, Reply, Want};
pub use sleepers::{Asleep, add, copy_sleepers, due_of, first_due, remove, undue};
