//! Tests of evaluation: rows of scripts and of nodes with what they give, and the smallest code, which meets the premise of
//! `eval`.
//!
//! It has no code of its own, and promises nothing. Rows take what is expected from the rules of numbers, texts and
//! choices, not from a run. What no script can write, or what is asked many times, goes by nodes.

#[cfg(test)]
mod rows;
#[cfg(test)]
mod scripts;
#[cfg(test)]
mod smallest;
