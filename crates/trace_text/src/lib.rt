//! The text of histories: it is written, read line by line, and parted from the script behind it.
//!
//! To a contract a text is the list of its bytes, and `Lines` is what is still to read of one, and how many lines were read.
//! The one promise: what is written spells the history and nothing else does, and what is read is exactly the longest
//! well spelled beginning, with the number of the first line that isn't well spelled. Which texts are traces is defined in
//! `spelling`; whether a history is a run is left to those who check it.
//!
//! A part with a head of its own: `spelling`, which bytes spell which entries, and what a document of a history and
//! its script is.
#![tactic(auto)]

mod document;
mod laws;
mod lines;
mod number;
pub mod spelling;
mod writing;

pub use document::split;
pub use laws::{documents_part, one_fault, one_reading, one_spelling, reads_on};
pub use lines::{Line, Lines};
pub use writing::{write_document, write_trace};
