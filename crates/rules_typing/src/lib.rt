//! The typing rules, and the type of a script that they accept.
//!
//! `specs/` has the rules as relations: what has which type (`Typing`, `TypingActions`), which rule is broken where, and
//! when a script is accepted (`TypingScripts`). The one promise: a `Checked` holds a script that no rule refuses. Finding
//! the least broken rule is left to `hs_types`.
#![tactic(auto)]

mod checked;

pub use checked::Checked;
