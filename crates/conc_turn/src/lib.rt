//! One value under a lock of its own, of which at most one holder at a time has the use.
//!
//! To a contract a `Turn` is its plan, which is the plan of the value that it was made with. A `Seat` is a right to ask
//! for the turn: the turn that it is of, a history that it has seen, its shares and its lost tries. The shares of all
//! seats of a turn add up to 16. A `Held` is the turn while somebody has it: the value, the history with which the value
//! was found, and what the seat was.
//!
//! The promise: what a seat gets has the plan of the turn, and its history begins with all that the seat had seen. Every
//! step on the words is checked against one rule, which holds between any two steps, whatever the other threads do.
//!
//! What the value does while it is held is left to its holder, who shows at the end that the plan is the same and the
//! history begins with the one that was found. Nothing is said of who gets the turn next, or that somebody ever does.
#![tactic(auto)]

mod calls;
mod held;
mod rule;
mod seat;
mod turn;
mod view;

pub use seat::Seat;
pub use turn::{Held, Tried, Turn};
pub use view::View;
