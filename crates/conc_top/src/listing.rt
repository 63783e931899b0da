//! `outcomes`: every outcome of a script is listed, or a run that comes to one of them is written.
ghost use Rattle.std.specs.Prelude.{◌≡◌, ◌≤◌, IfOk, MatchResult, Some};
ghost use Rattle.rules_code.specs.Codes.{body_of};
ghost use Rattle.conc_task.specs.words.Commands.{IsNumbered};
ghost use Rattle.conc_top.specs.Searches.{IsListingOf, IsSearched, IsToldOf, IsUnlisted, IsUntold};

use crate::ending::Ending;
use conc_outcomes::{document, explore};
use conc_task::Search;
use hs_base::{Limits, NoMemory, Txt};
use outcome_listing::{Bounds, Explored, Extent, listing};
use std::alloc::Global;

/// How much is listed of the outcomes of the script and the text of it, or the answer where there is none.
pub(crate) fn listed(
    alloc: Global,
    sought: &Search,
    witness: Option<u32>,
) -> Result<(Extent, Txt), Ending>
    requires { IsNumbered witness }
    ensures { MatchResult result (λ found. IsListingOf sought.now witness found.0 found.1) (IsUnlisted sought.now witness) }
{
    let explored = explored(alloc, sought)?;
    let text = text_of(alloc, &sought.script, witness, &explored)?;
    let Explored { extent, .. } = explored;
    Ok((extent, text))
}

/// The outcomes of the script within the bounds of the words and the limits of a run.
pub(crate) fn explored(alloc: Global, sought: &Search) -> Result<Explored, NoMemory>
    ensures { IfOk result (IsSearched sought.now) }
{
    let bounds = Bounds {
        states: sought.states,
        fuel: sought.fuel,
        limits: Limits::shipped(),
        clock: sought.clock,
    };
    explore(alloc, &sought.code, &bounds)
}

// The list of the outcomes, or the document of the one that is asked for.
fn text_of(
    alloc: Global,
    script: &[u8],
    witness: Option<u32>,
    explored: &Explored,
) -> Result<Txt, Ending>
    requires { IsNumbered witness }
    ensures { MatchResult result
        (IsToldOf witness script.now explored.now)
        (IsUntold witness explored.now) }
{
    match witness {
        None => Ok(listing(alloc, explored)?),
        Some(number) => history(alloc, explored, number, script),
    }
}

// The document of the run that comes to the outcome of this number, from 1.
fn history(alloc: Global, explored: &Explored, number: u32, script: &[u8]) -> Result<Txt, Ending>
    requires { 1 ≤ number }
    ensures { MatchResult result
        (IsToldOf (Some number) script.now explored.now)
        (IsUntold (Some number) explored.now) }
{
    match explored.outcomes.get(number as usize - 1) {
        Some(outcome) => Ok(document(alloc, outcome, script)?),
        None => Err(Ending::NoOutcome(number)),
    }
}
