//! A history as a picture: its marks, and the SVG that spells them.
//!
//! To a contract a film is the list of its frames: what a picture shows of each state, and of the entry that led there. The
//! promise: `draw` answers exactly the text by which the marks of a film are spelled (`picture` of `specs/Drawing`); which marks
//! there are says `specs/Marks`, and what each stands for `specs/Words`. Which film is that of a history is left to others.
//!
//! A part with a head of its own: `svg`, text as an SVG document has it.
#![tactic(auto)]

mod document;
mod drawing;
mod film;
mod frills;
mod grid;
mod pieces;
mod shapes;
mod spans;
pub mod svg;
mod words;

pub use document::draw;
pub use film::{Deed, Doing, Ending, Event, Frame, Pose};
