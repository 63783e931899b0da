//! What the expressions of core actions give.

ghost use Rattle.hs_soundness.specs.ExpressionLaws.{ExpressionsKeepSorts, SlotsMeanTheSame};

/// In an accepted script an expression of a core action gives a value of its sort or an exception, and never nothing, in
/// every environment that fits its scope. With slots in place of names it means the same.
pub fn expressions_keep_sorts()
    ensures value { ExpressionsKeepSorts }
    ensures slots { SlotsMeanTheSame }
{}
