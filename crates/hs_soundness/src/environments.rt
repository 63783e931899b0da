//! Environments that fit.

ghost use Rattle.std.specs.Prelude.{[]};
ghost use Rattle.rules_sorts.specs.TypedMeaning.{any_cell};
ghost use Rattle.hs_soundness.specs.CoreSorts.{SlotsFit};
ghost use Rattle.hs_soundness.specs.EnvironmentLaws.{OneMoreFits};

/// No values fit the empty scope. Where values fit a scope, one more fits it with one name more, of a sort that the value
/// has: it takes the next slot.
pub fn environments_fit()
    ensures none { SlotsFit any_cell [] [] [] }
    ensures more { OneMoreFits }
{}
