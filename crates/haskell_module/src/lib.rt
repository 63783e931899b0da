//! The text of the Haskell module that a script is printed as.
//!
//! To a contract a module is the list of its bytes. The promise: what is written is exactly the module of the script's tree
//! (`module_text` of `specs/Modules`), where want of memory alone is free; no two names of a script are one in the module, and none is a
//! word of Haskell or a name that the module or the support module has (`laws.rt`). That the module means what the script means is left
//! to the runs that hold it against the list of outcomes.
#![tactic(auto)]

mod actions;
mod exprs;
mod laws;
mod module;
mod names;
mod pieces;
mod types;

pub use laws::{names_are_no_other_words, names_stay_apart};
pub use module::write_module;
