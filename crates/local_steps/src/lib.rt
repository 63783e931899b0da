//! The local rules of a thread, one at a time, on the numbered nodes of a code.
//!
//! To a contract the active part of a thread and its frames stand for a term with slots (`specs/Machine`, of the terms of
//! `slot_laws`), and `Frames` is the list of its frames, the innermost first, over a masking state. The one promise: `step`
//! is exactly the local rule of that term, or says that none applies; a value or an exception meets its frame without
//! memory. What a rule costs beside its expressions doesn't grow with the frames, which know the masking state inside them;
//! what waits in a frame shares its values. How many rules a thread may do, and that none of an accepted script's threads is ever stuck, is left to
//! `frame_stack`.
//!
//! Parts with a head of their own: `environments`, the values of an action's slots, which copies share; `equality`,
//! whether two values, or two environments, are equal.
#![tactic(auto)]

mod active;
mod acts;
mod choices;
pub mod environments;
pub mod equality;
mod frames;
mod in_place;
mod parts;
mod stepping;

pub use active::{Active, Frame, Masking, StepResult};
pub use frames::Frames;
pub use in_place::step_in_place;
pub use stepping::{meet_exception, meet_value, step};
