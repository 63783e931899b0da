//! When values have types: the bridge between the typing rules and the meaning of expressions.
//!
//! It has no code: values of a type and environments of a scope (`specs/TypedMeaning.antt`), and what the names of a core
//! action's scope stand for (`Sorts`). That meaning keeps types is a law of `hs_soundness`.
#![tactic(auto)]
