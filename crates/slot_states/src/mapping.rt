//! Laws of one cell alone, in any type of values.
//!
//! The code's cells hold the code's values, and the rules of a run speak of what these stand for. The one promise: the
//! machine of one cell does the same to both, so a call on the code's cell is the call of the rules on what it stands for.
//! It has no code.

pub mod commuting;
