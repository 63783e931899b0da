//! Which object of hands a hand is of, named in a type.
ghost use Rattle.std.specs.Prelude.{Option, None};
ghost use Rattle.caps_visits.specs.Objects.{ObjectId};

use std::marker::Brand;

/// The object of hands that a cutter looks at. Each slice picks it.
pub(crate) trait LooksAt {
    ghost object: { Option ObjectId };
}

impl LooksAt for Brand {
    ghost object = { None };
}
