//! What the words and the input come to: a script to run, to search or to print, word that one is accepted, a question about
//! a document, or why there is none.
//!
//! To a contract a task is the capabilities, the fuel, the clock and the script that it runs, or the script that it searches and how
//! far (`specs/Tasks`). The one promise is that of `task_of`: its answer is what the command that the words are asks for, of the bytes
//! that the source had left, or of the ring that `bench` names; a refusal comes only for its cause, and of a script that was judged the
//! whole source was taken. What words are a command is left to `words`, which bytes are a script to `hs_compile`, and what is run
//! and told to the top call.
//!
//! Parts with a head of their own: `ring`, the text of the ring, the script by which the program measures itself;
//! `words`, the words of the command line, and the command that they ask for.
#![tactic(auto)]

mod input;
pub mod ring;
mod stop;
mod task;
pub mod words;

pub use stop::Stop;
pub use task::{Asked, Program, Replay, Search, Task, task_of};
