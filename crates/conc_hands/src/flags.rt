//! Sixty-four words in which capabilities tell each other that a running job is to be cut.
//!
//! To a contract `Flags` is a number of hands and a code, and a `Pen` is one thread's right to raise and read: its
//! shares, the tickets that it has raised, and what it has read, as pairs of a word's place and the number there. The
//! shares of all pens add up to the number of hands.
//!
//! The promise: each number other than 0 that a pen read is a ticket that some pen raised. A later raise may replace an
//! earlier one. That a raise is ever read is not said.

mod calls;
mod flags;
mod pen;
mod rule;
mod view;

pub use flags::Flags;
pub use pen::Pen;
pub use view::{FlagsKey, PenView, Reading};
