//! Local rules of a part are local rules of it over all frames with the same masking state.

ghost use Rattle.slot_laws.specs.FramingLaws.{SlicesFitFrames, RulesFitFrames};

/// Some local rules of a term alone, where the masking state below it is that of some frames, are local rules of it over
/// those frames.
pub fn slices_fit_frames()
    ensures { SlicesFitFrames }
{}

/// Some local rules of a term with names over the one frame of a masking scope are local rules of it over all frames with
/// that state, as long as the scope isn't left.
pub fn rules_fit_frames()
    ensures { RulesFitFrames }
{}
