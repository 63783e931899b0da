ghost use Rattle.trace_checker.specs.Checking.{OneVerdict};

/// Two answers other than want of memory that are right of one text and one script are equal.
#[tactic(auto, using(crate::proofs::Verdicts::one_verdict))]
pub fn one_verdict()
    ensures { OneVerdict }
{}
