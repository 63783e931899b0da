//! The rules of a run: terms, local rules, states, entries and histories, as definitions in `specs/`, and the types that
//! contracts of a run speak of.
//!
//! To a contract a `History` is the list of its entries. The one promise: `specs/Runs.antt` says which histories are runs
//! of a script, and what each leaves. The laws that hold of every run are left to `hs_laws`; the types of a script that
//! was accepted and of its code stand in `rules_typing` and `rules_code`, and are lent here too.
#![tactic(auto)]

mod entry;
mod history;
mod kept;

pub use entry::{Entry, LimitKind};
pub use history::History;
pub use kept::{Kept, Plan, Ticketed};
pub use rules_code::{Act, ActId, Code, CodeBody, ExprId, Fun, Node, NodeLink, Primitive};
pub use rules_typing::Checked;
