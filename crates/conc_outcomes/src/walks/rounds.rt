//! Whether a walk came back to where it was.
ghost use Rattle.std.specs.Prelude.{◌≡◌, ◌<◌, IfOk, IsTrue, length};
ghost use Rattle.rules_code.specs.declared.code.CodeBody.{CodeBody};
ghost use Rattle.outcome_laws.specs.timing.WithoutTime.{without_ticks};
ghost use Rattle.number_states.specs.declared.state.NumberState.{NumberState as AState};
ghost use Rattle.number_states.specs.States.{AreIn, Becomes};
ghost use Rattle.number_states.specs.Keys.{state_key};
ghost use Rattle.search_laws.specs.Shown.{forget};
ghost use Rattle.conc_outcomes.specs.walks.Entering.{AreAlike, IsAnother};

use hs_base::{ClockChoice, NoMemory};
use hs_rules::{Entry, History};
use number_states::{NumberState, Numbers};
use number_tables::{Keyed, Table};
use state_search::forget_time;
use std::alloc::Global;

/// What a timing keeps of a state.
fn kept_of(
    alloc: Global,
    clock: ClockChoice,
    numbers: &Numbers,
    state: &NumberState,
) -> Result<NumberState, NoMemory>
    requires { AreIn numbers.now state.now }
    ensures { IfOk result (λ x. Becomes (λ b. forget clock) numbers.now state.now numbers.now x) }
{
    let mut copy = state.copy(alloc)?;
    forget_time(&mut copy, numbers, clock);
    Ok(copy)
}

/// Whether what a timing keeps of a state is none of these.
pub fn is_another(
    alloc: Global,
    clock: ClockChoice,
    numbers: &Numbers,
    states: &Table<NumberState>,
    state: &NumberState,
) -> Result<bool, NoMemory>
    requires { AreIn numbers.now state.now }
    ensures { IfOk result (λ yes. IsTrue yes → IsAnother clock numbers.now states.now state.now) }
{
    let kept = kept_of(alloc, clock, numbers, state)?;
    match states.known(alloc, &kept)? {
        None => Ok(true),
        Some(_) => Ok(false),
    }
}

/// The key of what a timing keeps of a state.
fn key_in(
    alloc: Global,
    clock: ClockChoice,
    numbers: &Numbers,
    state: &NumberState,
) -> Result<Vec<u32>, NoMemory>
    requires { AreIn numbers.now state.now }
    ensures { IfOk result (λ key. (x : AState) × Becomes (λ b. forget clock) numbers.now state.now numbers.now x × (key.items ≡ state_key x)) }
{
    let kept = kept_of(alloc, clock, numbers, state)?;
    let mut key = Vec::new(alloc);
    kept.put_key(alloc, &mut key)?;
    Ok(key)
}

/// Whether two states show the same but for what the timing forgets: in real timing the time. Where the answer is no they may
/// all the same.
pub fn are_alike(
    alloc: Global,
    clock: ClockChoice,
    numbers: &Numbers,
    one: &NumberState,
    other: &NumberState,
) -> Result<bool, NoMemory>
    requires one { AreIn numbers.now one.now }
    requires other { AreIn numbers.now other.now }
    ensures { IfOk result (λ yes. IsTrue yes → (b : CodeBody) → AreAlike clock b numbers.now one.now other.now) }
{
    Ok(key_in(alloc, clock, numbers, one)? == key_in(alloc, clock, numbers, other)?)
}

/// Whether a history has an entry other than a Tick.
pub fn works(history: &History) -> bool
    ensures { IsTrue result → 0 < length (without_ticks history.now.list) }
{
    for place in 0..history.len() {
        if let Some(entry) = history.at(place) {
            if !matches!(entry, Entry::Tick { at: _ }) {
                return true;
            }
        }
    }
    false
}
