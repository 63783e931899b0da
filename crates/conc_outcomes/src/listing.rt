//! The outcomes of what was found, each with its witness.
ghost use Rattle.std.specs.Prelude.{◌≡◌, ◌≤◌, IfOk, IsTrue, map, slice_get};
ghost use Rattle.std.specs.List.{AllByRecursion};
ghost use Rattle.hs_base.specs.declared.tree.script.Script.{Script};
ghost use Rattle.hs_rules.specs.Histories.{steps_of};
ghost use Rattle.rules_expansion.specs.trees.Programs.{script_of};
ghost use Rattle.rules_code.specs.declared.code.CodeBody.{CodeBody};
ghost use Rattle.outcome_laws.specs.Outcomes as laws;
ghost use Rattle.outcome_laws.specs.Outcomes.{HasOutcome};
ghost use Rattle.outcome_listing.specs.Finals.{final_of, outcome_of, outcomes_of};
ghost use Rattle.conc_outcomes.specs.order.Rising.{outcome_by, Has};
ghost use Rattle.number_states.specs.Stocks.{text_at};
ghost use Rattle.search_laws.specs.Shown.{Shown};
ghost use Rattle.state_search.specs.Meaning.{states_of};
ghost use Rattle.state_search.specs.Searching.{IsCodeOf, Shows};
ghost use Rattle.conc_outcomes.specs.walks.Entering.{IsAt, IsWithin, HasReadNothing};
ghost use Rattle.conc_outcomes.specs.Exploring.{IsListed};

use crate::order::{Ended, Endings};
use crate::paths::walk_to;
use crate::walks::Walk;
use hs_base::{NoMemory, Txt};
use hs_items::Items;
use number_states::Numbers;
use outcome_listing::{Bounds, Final, Outcome};
use rules_code::CodeBody;
use state_search::{Found, Origin};
use std::alloc::Global;

/// The ending of the state of a number, which has ended so.
fn ending(alloc: Global, found: &Found, end: Final, state: u32) -> Result<Ended, NoMemory>
    ensures { IfOk result (λ e. (b : CodeBody) (d : Shown) → slice_get (states_of b found.now) state ≡ Some d → outcome_by e ≡ record { end = final_of end; output = d.output; errors = d.errors }) }
{
    let Some(one) = found.states.get(state) else {
        return Err(NoMemory);
    };
    let (Some(out), Some(err)) = (
        found.numbers.get_text(one.output),
        found.numbers.get_text(one.errors),
    ) else {
        return Err(NoMemory);
    };
    Ok(Ended {
        end,
        out: out.copy(alloc)?,
        err: err.copy(alloc)?,
        state,
    })
}

/// The ends of all runs of what was found, in the order of outcomes, none twice.
pub fn endings(alloc: Global, found: &Found) -> Result<Endings, NoMemory>
    ensures { IfOk result (λ es. (b : CodeBody) (o : laws.Outcome) → Shows b found.now o → Has es o) }
{
    let mut endings = Endings::new(alloc);
    for (state, kind) in found.kinds.iter().enumerate() {
        if let Some(end) = kind {
            let state = u32::try_from(state).map_err(|_| NoMemory)?;
            endings.add(ending(alloc, found, *end, state)?)?;
        }
    }
    Ok(endings)
}

/// Whether a number is that of just this text.
fn is_text(numbers: &Numbers, number: u32, text: &Txt) -> bool
    ensures { IsTrue result → text_at numbers.now number ≡ text.now }
{
    match numbers.get_text(number) {
        None => false,
        Some(other) => other.same(text),
    }
}

/// Whether a run has no more steps than may be, exceeds no limit, and in real timing reads no clock.
fn is_within(
    body: &CodeBody,
    bounds: &Bounds,
    numbers: &Numbers,
    walk: &Walk,
) -> Result<bool, NoMemory>
    requires { IsAt bounds.now body.now numbers.now walk.now }
    ensures { IfOk result (λ yes. IsTrue yes → (steps_of walk.now.history.list ≤ bounds.now.fuel) × IsWithin bounds.now body.now walk.now × HasReadNothing bounds.now body.now walk.now) }
{
    if walk.history.steps() > bounds.fuel as u64 {
        return Ok(false);
    }
    if !walk.unread {
        return Ok(false);
    }
    Ok(walk.exceeds(body, bounds, numbers)?.is_none())
}

/// Whether a run has come to an ending: has ended so, and printed both texts.
fn comes_to(
    alloc: Global,
    body: &CodeBody,
    bounds: &Bounds,
    numbers: &mut Numbers,
    walk: &Walk,
    ended: &Ended,
) -> Result<bool, NoMemory>
    requires { IsAt bounds.now body.now numbers.old walk.now }
    ensures { IfOk result (λ yes. IsTrue yes → (script : Script) → IsCodeOf body.now script → HasOutcome (script_of script) walk.now.history.list (outcome_by ended.now)) }
{
    if !is_text(numbers, walk.state.output, &ended.out) {
        return Ok(false);
    }
    if !is_text(numbers, walk.state.errors, &ended.err) {
        return Ok(false);
    }
    match walk.ended(alloc, body, bounds, numbers)? {
        None => Ok(false),
        Some(end) => Ok(end == ended.end),
    }
}

/// The outcome of an ending, and a run that comes to it. That the way to its state can be walked again is not promised: where it
/// can't, the answer is want of memory.
fn outcome(
    alloc: Global,
    body: &CodeBody,
    bounds: &Bounds,
    numbers: &mut Numbers,
    origins: &[Origin],
    ended: &Ended,
) -> Result<Outcome, NoMemory>
    ensures listed { IfOk result (λ o. (script : Script) → IsCodeOf body.now script → IsListed bounds.now (script_of script) o) }
    ensures is { IfOk result (λ o. outcome_of o ≡ outcome_by ended.now) }
{
    let walk = walk_to(alloc, body, bounds, numbers, origins, ended.state)?;
    if !is_within(body, bounds, numbers, &walk)? {
        return Err(NoMemory);
    }
    if !comes_to(alloc, body, bounds, numbers, &walk, ended)? {
        return Err(NoMemory);
    }
    let Walk { history, .. } = walk;
    Ok(Outcome {
        end: ended.end,
        out: ended.out.copy(alloc)?,
        err: ended.err.copy(alloc)?,
        witness: history,
    })
}

/// The outcomes of these endings, in order.
pub fn outcomes(
    alloc: Global,
    body: &CodeBody,
    bounds: &Bounds,
    numbers: &mut Numbers,
    origins: &[Origin],
    endings: &Endings,
) -> Result<Items<Outcome>, NoMemory>
    ensures listed { IfOk result (λ os. (script : Script) → IsCodeOf body.now script → AllByRecursion (IsListed bounds.now (script_of script)) os) }
    ensures are { IfOk result (λ os. outcomes_of os ≡ map outcome_by endings.now) }
{
    let mut outcomes = Items::new(alloc);
    for place in 0..endings.len() {
        if let Some(ended) = endings.get(place) {
            outcomes.add(outcome(alloc, body, bounds, numbers, origins, ended)?)?;
        }
    }
    Ok(outcomes)
}
