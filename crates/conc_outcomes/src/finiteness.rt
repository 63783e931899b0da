//! Whether every schedule of a script ends, found out from the moves between the states of a search.
//!
//! To a contract the moves are the edges of `search_laws`, and the answer is a round of them or says that there are ranks which
//! fall along each (`search_laws::ends`).
//!
//! Its promise: where the answer is that every schedule ends, there is a bound on all runs of the timing; where it is a round,
//! the script goes on for ever.

mod ending;
mod marks;
mod walking;

pub use ending::ends;
pub use marks::Ends;
