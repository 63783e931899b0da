//! Eager local rules of a state in numbers, taken at once.
//!
//! To a contract `rest` leaves a state to which a chain of eager local rules leads (`EagerEntries` of `search_laws`), and says
//! which. What it finds out of the local rule of a term it keeps in `EagerRules`, so that no rule is found out twice.
//!
//! Its promise: exactly that, with no more than 1,024 rules, none of which leaves more frames than may be, and all numbers in
//! tables that have only grown. That nothing eager is left is not promised: whoever searches needn't know.

mod resting;
mod rules;

pub use resting::rest;
pub use rules::EagerRules;
