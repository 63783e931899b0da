//! Why there may be outcomes that are not listed, and a run that shows it.
ghost use Rattle.std.specs.Prelude.{◌≡◌, IfOk, IsTrue, length};
ghost use Rattle.hs_base.specs.declared.clock_choice.ClockChoice.TheVariants.{Real};
ghost use Rattle.hs_base.specs.declared.tree.script.Script.{Script};
ghost use Rattle.rules_expansion.specs.trees.Programs.{script_of};
ghost use Rattle.number_states.specs.Stocks.{Stock, HasGrown};
ghost use Rattle.number_states.specs.States.{AreIn};
ghost use Rattle.state_search.specs.Searching.{IsCodeOf};
ghost use Rattle.conc_outcomes.specs.walks.Walking.{ReadsLast};
ghost use Rattle.conc_outcomes.specs.walks.Entering.{IsAt, IsAnother, Exceeds};
ghost use Rattle.conc_outcomes.specs.Exploring.{HasGap};
ghost use Rattle.conc_outcomes.specs.Parts.{IsExtentOf};

use crate::paths::{Bounded, walk_by, walk_to};
use crate::walks::{Ticks, Walk, is_another};
use hs_base::{ClockChoice, NoMemory};
use hs_rules::{History, LimitKind};
use number_states::{NumberState, Numbers};
use number_tables::Table;
use outcome_listing::{Bounds, Cause, Extent};
use rules_code::CodeBody;
use state_search::{Gap, Origin};
use std::alloc::Global;

/// A run whose last entry reads the clock.
fn reading(
    alloc: Global,
    body: &CodeBody,
    bounds: &Bounds,
    numbers: &mut Numbers,
    origins: &[Origin],
    by: &Origin,
) -> Result<History, NoMemory>
    ensures { IfOk result (λ h. (script : Script) → IsCodeOf body.now script → (bounds.now.clock ≡ Real) × ReadsLast bounds.now.clock bounds.now.limits (script_of script) h.list) }
{
    let Some(entry) = by.entry else {
        return Err(NoMemory);
    };
    if bounds.clock != ClockChoice::Real {
        return Err(NoMemory);
    }
    let mut walk = walk_to(alloc, body, bounds, numbers, origins, by.parent)?;
    walk.enter_reading(alloc, body, bounds, numbers, entry)?;
    let Walk { history, .. } = walk;
    Ok(history)
}

/// Whether a walk's last state exceeds this limit, and none before it.
fn shows_limit(
    body: &CodeBody,
    bounds: &Bounds,
    numbers: &Numbers,
    kind: LimitKind,
    walk: &Walk,
) -> Result<bool, NoMemory>
    requires { IsAt bounds.now body.now numbers.now walk.now }
    ensures { IfOk result (λ yes. IsTrue yes → Exceeds bounds.now body.now walk.now kind) }
{
    match walk.exceeds(body, bounds, numbers)? {
        None => Ok(false),
        Some(first) => Ok(first == kind),
    }
}

/// Whether there are as many states as may be, and a walk came to another one.
fn shows_another(
    alloc: Global,
    bounds: &Bounds,
    numbers: &Numbers,
    states: &Table<NumberState>,
    walk: &Walk,
) -> Result<bool, NoMemory>
    requires { AreIn numbers.now walk.now.state }
    ensures { IfOk result (λ yes. IsTrue yes → (length states.now ≡ bounds.now.states) × IsAnother bounds.now.clock numbers.now states.now walk.now.state) }
{
    if states.len() != bounds.states as usize {
        return Ok(false);
    }
    is_another(alloc, bounds.clock, numbers, states, &walk.state)
}

/// Whether a walk is the evidence of a gap, where a search has these states. It never is of a clock that is read.
fn shows(
    alloc: Global,
    body: &CodeBody,
    bounds: &Bounds,
    numbers: &Numbers,
    states: &Table<NumberState>,
    cause: Cause,
    walk: &Walk,
) -> Result<bool, NoMemory>
    requires { IsAt bounds.now body.now numbers.now walk.now }
    ensures { IfOk result (λ yes. IsTrue yes → (g : Stock) → HasGrown g numbers.now → (script : Script) → IsCodeOf body.now script → HasGap bounds.now (script_of script) body.now g states.now cause walk.now.history.list) }
{
    match cause {
        Cause::Clock => Ok(false),
        Cause::Fuel => Ok(walk.history.steps() > bounds.fuel as u64),
        Cause::Limit(kind) => shows_limit(body, bounds, numbers, kind, walk),
        Cause::States => shows_another(alloc, bounds, numbers, states, walk),
    }
}

/// Which Ticks the evidence of a gap has: where it is that a run is too long, all that the search counted.
fn ticks_of(cause: Cause) -> Ticks {
    match cause {
        Cause::Fuel => Ticks::Each,
        _ => Ticks::Needed,
    }
}

/// The evidence of a gap, where a search has these states. That the way to it can be walked again is not promised: where it
/// can't, the answer is want of memory.
fn evidence(
    alloc: Global,
    code: Bounded,
    numbers: &mut Numbers,
    states: &Table<NumberState>,
    origins: &[Origin],
    gap: &Gap,
) -> Result<History, NoMemory>
    ensures { IfOk result (λ h. (script : Script) → IsCodeOf code.entry.body.now script → HasGap code.entry.bounds.now (script_of script) code.entry.body.now numbers.old states.now gap.now.cause h.list) }
{
    let Bounded { body, bounds } = code;
    match gap.cause {
        Cause::Clock => reading(alloc, body, bounds, numbers, origins, &gap.by),
        cause => {
            let walk = walk_by(
                alloc,
                body,
                bounds,
                numbers,
                origins,
                ticks_of(cause),
                &gap.by,
            )?;
            if !shows(alloc, body, bounds, numbers, states, cause, &walk)? {
                return Err(NoMemory);
            }
            let Walk { history, .. } = walk;
            Ok(history)
        }
    }
}

/// Whether each outcome is listed, where a search has this gap and these states; and the evidence where not.
pub fn extent(
    alloc: Global,
    code: Bounded,
    numbers: &mut Numbers,
    states: &Table<NumberState>,
    origins: &[Origin],
    gap: &Option<Gap>,
) -> Result<Extent, NoMemory>
    ensures { IfOk result (λ x. (script : Script) → IsCodeOf code.entry.body.now script → IsExtentOf code.entry.bounds.now (script_of script) code.entry.body.now numbers.old states.now gap.now x) }
{
    match gap {
        None => Ok(Extent::All),
        Some(gap) => {
            let run = evidence(alloc, code, numbers, states, origins, gap)?;
            Ok(Extent::NotAll(gap.cause, run))
        }
    }
}
