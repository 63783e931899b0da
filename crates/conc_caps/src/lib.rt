//! One desk, run by several capabilities.
//!
//! To a contract a `Desk` is what `conc_world` says: its plan, its history, its ending, and what was lent to it. `run_caps`
//! is the loop of `caps_loop` over a desk with a name for what it was lent (`lent_desk`).
//!
//! The promise: the desk that comes back has the same plan, an ending, and a history that begins with the one that was handed
//! in; and the sinks and the clock that it was lent are those that the first desk was lent, as far as they can tell. What an
//! ending means, and that a history is a run of the plan's script, is kept by the desk's own type.
#![tactic(auto)]

mod caps;

pub use caps::run_caps;
// a desk and what it leaves, for those who run one
pub use lent_desk::{Closed, Desk, Parts, RunEnd, Shows, alone};
