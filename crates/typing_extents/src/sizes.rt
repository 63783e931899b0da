//! The sizes that the rule `Large` bounds, counted in one walk over the script, without any expansion.
//!
//! A count is a number up to 1,000,001, which stands for all greater ones: a contract says that it is the lesser of the
//! size that `rules_expansion` defines and of 1,000,001. When a size breaks the rule is left to `typing_parts`.

mod count;
mod derived;
mod nodes;

pub use count::{add, greater};
pub use nodes::body_nodes;
