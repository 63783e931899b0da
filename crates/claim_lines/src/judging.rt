//! What a list of outcomes decides of each claim.
ghost use Rattle.std.specs.Prelude.{◌≡◌, List, IfOk, cond, not};
ghost use Rattle.outcome_listing.specs.Finals.{outcomes_of};
ghost use Rattle.claim_lines.specs.declared.verdict.Verdict.{Verdict as AVerdict};
ghost use Rattle.claim_lines.specs.declared.verdict.Judged.TheVariants as judged;
ghost use Rattle.claim_lines.specs.Meaning.{MetIs};
ghost use Rattle.claim_lines.specs.Verdicts as verdicts;
ghost use Rattle.claim_lines.specs.Verdicts.{JudgesEach, JudgesSome, JudgesEnds, Judges, JudgeAll, judged_of, verdict_lines};

use crate::claim::{Claim, Part, Says};
use crate::meeting::first_that;
use crate::verdict::{Judged, Verdict};
use crate::writing::write_verdict;
use hs_base::{NoMemory, Txt};
use outcome_listing::{Endless, Explored, Extent};
use std::alloc::Global;

// ---- one claim

/// Of a claim on each outcome: one that meets the parts breaks it, or, where `broken` is false, one that doesn't.
fn on_each(parts: &[Part], broken: bool, explored: &Explored) -> Result<Verdict, NoMemory>
    ensures { IfOk result (JudgesEach (MetIs parts.now (not broken)) (MetIs parts.now broken) (outcomes_of explored.now.outcomes) explored.now.extent) }
{
    match first_that(parts, broken, explored.outcomes.as_slice()) {
        Some(number) => {
            let number = u32::try_from(number).map_err(|_| NoMemory)?;
            Ok(Verdict::FailsBy(number))
        }
        None => match &explored.extent {
            Extent::All => Ok(Verdict::Holds),
            Extent::NotAll(cause, _) => Ok(Verdict::Open(*cause)),
        },
    }
}

/// Of a claim that some outcome has to meet.
fn on_some(parts: &[Part], explored: &Explored) -> Verdict
    ensures { JudgesSome parts.now (outcomes_of explored.now.outcomes) explored.now.extent result }
{
    match first_that(parts, true, explored.outcomes.as_slice()) {
        Some(_) => Verdict::Holds,
        None => match &explored.extent {
            Extent::All => Verdict::Fails,
            Extent::NotAll(cause, _) => Verdict::Open(*cause),
        },
    }
}

/// Of the claim that every schedule ends. A list of all outcomes that leaves this unknown decides nothing; no search answers one.
fn on_ends(explored: &Explored) -> Result<Verdict, NoMemory>
    ensures { IfOk result (JudgesEnds explored.now.extent explored.now.endless) }
{
    match &explored.endless {
        Endless::Never => Ok(Verdict::Holds),
        Endless::Round { .. } => Ok(Verdict::FailsForEver),
        Endless::Unknown => match &explored.extent {
            Extent::All => Err(NoMemory),
            Extent::NotAll(cause, _) => Ok(Verdict::Open(*cause)),
        },
    }
}

fn verdict_on(says: &Says, explored: &Explored) -> Result<Verdict, NoMemory>
    ensures { IfOk result (Judges explored.now says.now) }
{
    match says {
        Says::Always(parts) => on_each(parts.as_slice(), false, explored),
        Says::Never(parts) => on_each(parts.as_slice(), true, explored),
        Says::Sometimes(parts) => Ok(on_some(parts.as_slice(), explored)),
        Says::Terminates => on_ends(explored),
    }
}

// ---- all claims

fn fails(verdict: Verdict) -> bool
    ensures { result ≡ verdicts.fails verdict }
{
    match verdict {
        Verdict::FailsBy(_) | Verdict::Fails | Verdict::FailsForEver => true,
        Verdict::Holds | Verdict::Open(_) => false,
    }
}

fn is_open(verdict: Verdict) -> bool
    ensures { result ≡ verdicts.is_open verdict }
{
    match verdict {
        Verdict::Open(_) => true,
        Verdict::Holds | Verdict::FailsBy(_) | Verdict::Fails | Verdict::FailsForEver => false,
    }
}

fn judged_by(failing: bool, undecided: bool) -> Judged
    ensures { result ≡ cond failing judged.Fail (cond undecided judged.Open judged.Hold) }
{
    if failing {
        Judged::Fail
    } else if undecided {
        Judged::Open
    } else {
        Judged::Hold
    }
}

/// What the list decides of each claim, in the order of the claims: what they come to, and a line for each. The only error is want of
/// memory, but for a list of all outcomes that leaves unknown whether every schedule ends.
pub fn judge(
    alloc: Global,
    claims: &[Claim],
    explored: &Explored,
) -> Result<(Judged, Txt), NoMemory>
    ensures { IfOk result (λ r. (verdicts : List AVerdict) × JudgeAll explored.now claims.now verdicts × (r.0 ≡ judged_of verdicts) × (r.1 ≡ verdict_lines claims.now verdicts)) }
{
    let mut text = String::new(alloc);
    let mut failing = false;
    let mut undecided = false;
    for claim in claims {
        let verdict = verdict_on(&claim.says, explored)?;
        write_verdict(&mut text, claim.line, verdict)?;
        failing |= fails(verdict);
        undecided |= is_open(verdict);
    }
    let text = Txt::from_string(text)?;
    Ok((judged_by(failing, undecided), text))
}
