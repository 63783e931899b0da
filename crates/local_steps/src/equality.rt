//! Whether two values, or two environments, are equal.
//!
//! To a contract values and environments are plain data, and the promise is that an answer is true exactly where they are
//! equal. Nothing tells that two parts are one in memory, so a comparison takes as many steps as the parts have values, and
//! counts a part as often as it is reached. Whoever can't wait for that says how many steps it may take (`Effort`); where
//! these don't do there is no answer. A list is walked by a loop, and all else is as deep as its type.

mod effort;
mod values;

pub use effort::{Effort, Undecided};
pub use values::{compare_envs, same_env, same_value};
