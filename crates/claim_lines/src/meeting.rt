//! Which outcomes meet the parts of a claim.
ghost use Rattle.std.specs.Prelude.{◌≡◌, ◌↔◌, IsTrue, MatchOption, not};
ghost use Rattle.std.specs.List.{AllByRecursion};
ghost use Rattle.outcome_listing.specs.Finals.{final_of, outcome_of, outcomes_of};
ghost use Rattle.claim_lines.specs.Meaning.{Has, EndsWith, told_line, IsStuck, MeetsPart, MetIs};
ghost use Rattle.claim_lines.specs.Verdicts.{IsFirst};

use crate::claim::Part;
use outcome_listing::{Final, Outcome};

fn has(whole: &str, part: &str) -> bool
    ensures { IsTrue result ↔ Has whole.now part.now }
{
    whole.contains(part)
}

/// Whether the error output ends with the line of a main that was told that it waits for ever.
fn ends_as_told(errors: &str) -> bool
    ensures { IsTrue result ↔ EndsWith errors.now told_line }
{
    errors.ends_with(
        "uncaught exception in main: thread blocked indefinitely in an MVar operation\n",
    )
}

fn is_stuck(outcome: &Outcome) -> bool
    ensures { IsTrue result ↔ IsStuck (outcome_of outcome.now) }
{
    match outcome.end {
        Final::Done => false,
        Final::Uncaught => ends_as_told(outcome.err.as_str()),
        Final::Deadlock => true,
    }
}

fn ended(outcome: &Outcome, end: Final) -> bool
    ensures { IsTrue result ↔ (final_of outcome.now.end ≡ final_of end) }
{
    outcome.end == end
}

fn meets_part(part: &Part, outcome: &Outcome) -> bool
    ensures { IsTrue result ↔ MeetsPart (outcome_of outcome.now) part.now }
{
    match part {
        Part::Done => ended(outcome, Final::Done),
        Part::Uncaught => ended(outcome, Final::Uncaught),
        Part::Deadlock => ended(outcome, Final::Deadlock),
        Part::Stuck => is_stuck(outcome),
        Part::Output(text) => outcome.out.same(text),
        Part::Errors(text) => outcome.err.same(text),
        Part::OutputHas(text) => has(outcome.out.as_str(), text.as_str()),
        Part::ErrorsHas(text) => has(outcome.err.as_str(), text.as_str()),
    }
}

/// Whether the outcome meets all of them.
fn meets(parts: &[Part], outcome: &Outcome) -> bool
    ensures { MetIs parts.now result (outcome_of outcome.now) }
{
    for part in parts {
        if !meets_part(part, outcome) {
            return false;
        }
    }
    true
}

/// The number, from 1, of the first outcome that meets the parts, or, where `met` is false, of the first that doesn't.
pub(crate) fn first_that(parts: &[Part], met: bool, outcomes: &[Outcome]) -> Option<usize>
    ensures { MatchOption result (AllByRecursion (MetIs parts.now (not met)) (outcomes_of outcomes.now)) (IsFirst (MetIs parts.now (not met)) (MetIs parts.now met) (outcomes_of outcomes.now)) }
{
    for (place, outcome) in outcomes.iter().enumerate() {
        if meets(parts, outcome) == met {
            return Some(place + 1);
        }
    }
    None
}
