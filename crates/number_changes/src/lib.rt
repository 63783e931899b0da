//! The changes that the operations of threads make in a state in numbers.
//!
//! To a contract a change is by `Becomes` of `number_states` a function of `slot_states` on what the state stands for. Where
//! something may be printed, or thrown at a thread, it is so by `Makes` (`specs/Moves.antt`), which says also by which bytes the
//! texts of the two outputs go on.
//!
//! Its promise: exactly that, with all numbers in tables that have only grown. Which operation a thread stands at, and what an
//! entry makes of a state, is left to the crates above.
#![tactic(auto)]

mod calling;
mod printing;
mod telling;
mod threads;
mod throwing;

pub use calling::{CellCall, call, make, put, try_put};
pub use printing::{print, print_error, print_line};
pub use telling::{
    Child, acquire, delay, fork, fork_unmask, new_timeout, tell_clock, tell_masking,
};
pub use threads::acting;
pub use throwing::throw;
