//! An accepted script is never stuck in pure meaning. It has no code: `specs/` has the definitions, and each public
//! function with an empty body carries one law as its contract.
//!
//! Its promise: each body of an accepted script has the declared type, and an expression of a core action gives a value
//! of its sort or an exception, and never nothing, in every environment that fits its scope. That whole runs are never
//! stuck is left to `hs_progress`.
#![tactic(auto)]

pub mod bodies;
pub mod environments;
pub mod expressions;
pub mod meaning;
