//! Terms of threads by number: frames in stacks, and active parts in stacks.
//!
//! To a contract `Terms` is a list of stacks, each a list of frames, the innermost first, and a list of terms, each an active
//! part and the number of its stack (`specs/tables/Numbered`); a number is a place there. What a part and its frames stand for is said
//! by `local_steps`, of every code. The tables only grow.
//!
//! Its promise: a number that was given stands for the same at any later time, and parts and frames with one key stand for the
//! same in every code, so each gets the number that stands. What a term does next is left to what stands above.

mod keys;
pub mod laws;
mod level;
mod term;
mod terms;

pub use term::Term;
pub use terms::Terms;
