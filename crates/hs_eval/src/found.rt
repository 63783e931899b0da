//! What an expression gives.

use hs_base::{Exn, Value, Values};

/// A value, an exception, or nothing where the typing rules are broken.
#[derive(Drop)]
pub enum Found {
    Value(Value),
    Throws(Exn),
    Stuck,
}

/// What a list of expressions gives: all their values, the first exception, or nothing.
#[derive(Drop)]
pub enum FoundAll {
    Values(Values),
    Throws(Exn),
    Stuck,
}
