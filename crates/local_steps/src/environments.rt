//! The values of an action's slots, which copies share.
//!
//! To a contract an `Env` is the list of its values, the first bound first, and so is a `Waiting`, which has room for one
//! more. In memory an environment is a list that it shares and at most eight values of its own, so a copy costs a count and
//! as many copies of values, however many values there are; and each of those copies takes constant time. Where it has eight
//! of its own, the next bind shares all.
//!
//! The one promise: each call answers for the whole list as one. What expressions give is left to `hs_eval`, and which
//! values an action's slots have to the crates of frames.

mod copied;
mod env;
mod spare;
mod waiting;

pub use env::Env;
pub use spare::Spare;
pub use waiting::Waiting;
