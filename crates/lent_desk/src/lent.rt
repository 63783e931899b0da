//! What was lent to a desk, named in a type.
ghost use Rattle.std.specs.Prelude.{ℕ, List, Option, None};

use std::marker::Brand;

/// What the sinks had been told and the clock had read when they were lent. Each run picks it.
pub trait LentAs {
    ghost output: { Option (List ℕ) };

    ghost errors: { Option (List ℕ) };

    ghost last: { ℕ };
}

impl LentAs for Brand {
    ghost output = { None };

    ghost errors = { None };

    ghost last = { 0 };
}
