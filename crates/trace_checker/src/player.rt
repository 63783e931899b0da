//! One object that stands for the state that a list of entries leaves, says of any entry whether it is legal there, and goes
//! on by it.
//!
//! To a contract a `Player` is a world and the code that its threads' actions are of. `Played` of `specs/player/Playing` says of which
//! entries it stands for the state that they leave. The promise: `play` answers true exactly where the entry is legal there,
//! and then the player stands for the state that the entry leaves; else it stands for the same state as before. It keeps no
//! history, and has no limit but memory. Where the entries come from, how many steps they may have, and what they print is left
//! to the caller.

mod entering;
mod player;
mod playing;
mod reaching;

pub use player::{Player, Reached};
