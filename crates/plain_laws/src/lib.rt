//! Plain facts of Booleans, numbers, options and lists that proofs of several crates use and the standard library lacks.
//!
//! It has no code and no contract: the lemmas of `proofs/` speak of no type of this project, and each stands there once.
#![tactic(auto)]
