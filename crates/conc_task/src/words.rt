//! The words of the command line, and the command that they ask for.
//!
//! To a contract the words are a list of texts, and the command is a function of them (`specs/words/Commands`), over the
//! command line that the program takes (`specs/words/Program`). The promise: each list of words is read as its one command, or
//! refused where it is none. Want of memory alone is free. What a command does is left to the top call.

mod command;
mod program;
mod reading;

pub use command::{Command, Question, WordsFault};
pub use reading::read_words;
