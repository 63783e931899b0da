//! What an expression of an accepted script gives.

use hs_base::{Exn, Value};

/// A value or an exception.
#[derive(Drop)]
pub enum Outcome {
    Value(Value),
    Throws(Exn),
}
