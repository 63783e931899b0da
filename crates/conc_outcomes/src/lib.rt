//! Every outcome of a script, with a run that comes to each, and whether there are others.
//!
//! To a contract an outcome is that of `outcome_laws`, and what a script's outcomes are is said of all its runs
//! (`specs/Exploring`). `explore` is the search of `state_search`, the walks of `walks` and the ends of `finiteness` put
//! together, and `document` writes one history down.
//!
//! Its promise: each outcome that is listed has its witness, they rise in the order of outcomes, and there are no others where it
//! says so; where it says that there may be, a run shows why. Which script is searched is left to the call above.
//!
//! Parts with a head of their own: `finiteness`, whether every schedule of a script ends; `walks`, runs that a
//! search found, entered again in exact time; `order`, ends of runs in the order of outcomes.
#![tactic(auto)]

mod ends;
mod exploring;
mod extent;
pub mod finiteness;
mod listing;
pub mod order;
mod paths;
pub mod walks;
mod witness;

pub use exploring::explore;
pub use witness::document;
