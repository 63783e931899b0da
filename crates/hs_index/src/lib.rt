//! Where the first of each name stands among names in a row.
//!
//! To a contract an `Index` is any list of names that it indexes (`specs/Indexing`). The one promise: `first` answers the
//! place of the first such name of that list, in time by the logarithm of its length; an `add` that is refused memory leaves
//! the list as it was.
#![tactic(auto)]

mod index;

pub use index::Index;
