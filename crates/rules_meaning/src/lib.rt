//! Values, and what expressions mean.
//!
//! It has no code: the mirror of the code's values (`specs/Values.antt`), what an expression gives in an environment
//! (`Meaning`), and what a script's functions and the expressions of its core actions give (`CoreMeaning`). Evaluating
//! is left to `hs_eval`, and steps of threads to `hs_rules`.
#![tactic(auto)]
