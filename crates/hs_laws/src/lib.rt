//! The laws of every run of a script. This crate has no code: each public function with an empty body carries one law as
//! its contract, so that a caller may use it and a reader find it.
//!
//! To a contract a run is a script, a list of entries and the state that they leave. `brackets`, `cells` and `masks` say what
//! holds at every moment of a history; `clock` defines where its Ticks may stand, and `endings` how it ends; `runs`, `quiet`
//! and `standing` say what whoever keeps a history needs.
//!
//! Its promise: what the contracts say holds of every script and every history that the rules of `hs_rules` allow. The
//! rules themselves are left to `hs_rules`, and that a program's history is such a run to the crates that keep one.
//!
//! A part with a head of its own: `cases`, the rules of a run by cases, each with a name, by which a step is
//! proved.
#![tactic(auto)]

pub mod brackets;
pub mod cases;
pub mod cells;
pub mod clock;
pub mod endings;
pub mod masks;
pub mod quiet;
pub mod runs;
pub mod standing;
pub mod terms;
