//! From the bytes of a script to its code, or the refusal.
//!
//! To a contract a refusal is the cause that it names (`specs/Verdicts`). The one promise: the causes are judged in one
//! order, too many bytes, no tokens, no script, a broken typing rule, and each is answered exactly where it holds and none
//! before it does; else the answer is the script that the bytes are, or its code. Want of memory alone is free. What is
//! done with a refusal is left to the top call, and running to the machine.
#![tactic(auto)]

mod compiling;
mod laws;
mod refusal;

pub use compiling::{accept, compile};
pub use laws::one_verdict;
pub use refusal::{CompileFault, Refusal};
