ghost use Rattle.std.specs.Prelude.{List};
ghost use Rattle.hs_base.specs.declared.clock_choice.ClockChoice.{ClockChoice};
ghost use Rattle.rules_expansion.specs.trees.Programs.{Fn};
ghost use Rattle.outcome_listing.specs.declared.explored.Explored.{Explored as AnExplored};
ghost use Rattle.claim_lines.specs.declared.claim.Claim.{Claim as AClaim};
ghost use Rattle.claim_lines.specs.declared.verdict.Verdict.{Verdict as AVerdict};
ghost use Rattle.claim_lines.specs.Verdicts.{JudgeAll};
ghost use Rattle.claim_lines.specs.Telling.{IsListOf, AllTell};

/// Verdicts on a script's claims by a list of its outcomes tell of all its runs.
#[tactic(auto, using(crate::proofs::Told::all_tell))]
pub fn verdicts_tell_of_runs()
    ensures { (clock : ClockChoice) (ds : List Fn) (e : AnExplored) → IsListOf clock ds e → (claims : List AClaim) (verdicts : List AVerdict) → JudgeAll e claims verdicts → AllTell clock ds e claims verdicts }
{}
