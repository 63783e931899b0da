//! The picture of a written history of a script.
//!
//! To a contract a text is its bytes. The one promise is that of `picture`: where the text is a trace of a run of the script with
//! at most 10,000 entries, it answers the picture of this run (`picture_of` of `film`); where the run has more, it says
//! how many; and else it answers what is refused by `trace_checker`. What is drawn is defined in `lane_picture`, what a text
//! and a run are in `trace_text::spelling` and `hs_rules`.
//!
//! A part with a head of its own: `film`, what a picture shows of each state of a history, and of each entry.
#![tactic(auto)]

mod fault;
pub mod film;
mod filming;
mod looking;

pub use fault::PictureFault;
pub use filming::picture;
