//! A Finish.
ghost use Rattle.std.specs.Prelude.{[], IfOk, OnOk, Some, length};
ghost use Rattle.rules_meaning.specs.Values.{UnitValue};
ghost use Rattle.rules_code.specs.declared.code.CodeBody.{CodeBody};
ghost use Rattle.hs_rules.specs.declared.entry.Entry.TheVariants as entry;
ghost use Rattle.slot_laws.specs.SlotRules.{ret};
ghost use Rattle.slot_states.specs.SlotStates.{all_resumed, all_withdrawn, finishes};
ghost use Rattle.number_states.specs.Stocks.{HasGrown};
ghost use Rattle.number_states.specs.States.{AreIn, Becomes};
ghost use Rattle.number_changes.specs.Moves.{Enters, Makes};

use crate::lines::uncaught;
use crate::waiting::withdraw;
use hs_base::{NoMemory, Value};
use local_steps::Active;
use number_changes::acting;
use number_states::waits::throwers_to;
use number_states::{NumberState, Numbers};
use std::alloc::Global;

/// Each of these throwers is answered, in order, and its throw is over.
fn answer_throwers(
    alloc: Global,
    numbers: &mut Numbers,
    state: &mut NumberState,
    throwers: &[u32],
) -> Result<(), NoMemory>
    requires { AreIn numbers.old state.old }
    ensures is { OnOk result (Becomes (λ b x. record x { threads = all_resumed throwers.now (ret UnitValue) x.threads; flight = all_withdrawn throwers.now x.flight }) numbers.old state.old numbers.new state.new) }
    ensures grows { HasGrown numbers.old numbers.new }
{
    for thrower in throwers {
        state.answer(alloc, numbers, *thrower, Value::Unit)?;
        withdraw(numbers, state, *thrower);
    }
    Ok(())
}

/// The thread has finished, and all that throw at it are answered.
fn finished(
    alloc: Global,
    numbers: &mut Numbers,
    state: &NumberState,
    t: u32,
) -> Result<NumberState, NoMemory>
    requires { AreIn numbers.old state.now }
    ensures is { IfOk result (λ y. Becomes (λ b. finishes t 0) numbers.old state.now numbers.new y) }
    ensures grows { HasGrown numbers.old numbers.new }
{
    let throwers = throwers_to(alloc, state.flight.as_slice(), t)?;
    let mut next = state.copy(alloc)?;
    next.finish(numbers, t);
    answer_throwers(alloc, numbers, &mut next, throwers.as_slice())?;
    Ok(next)
}

/// The same, and this line stands behind what standard error has.
fn finished_with(
    alloc: Global,
    numbers: &mut Numbers,
    state: &NumberState,
    t: u32,
    line: &str,
) -> Result<NumberState, NoMemory>
    requires { AreIn numbers.old state.now }
    ensures is { IfOk result (λ y. (b : CodeBody) → Makes (λ x. Some (finishes t (length line.now) x)) b numbers.old state.now [] line.now numbers.new y) }
    ensures grows { HasGrown numbers.old numbers.new }
{
    let mut next = finished(alloc, numbers, state, t)?;
    let Some(printed) = next.printed.checked_add(line.len() as u64) else {
        return Err(NoMemory);
    };
    next.errors = numbers.text_and(alloc, next.errors, line)?;
    next.printed = printed;
    Ok(next)
}

/// A thread that is not blocked ends, where its whole term is a value or an exception.
pub fn finish(
    alloc: Global,
    numbers: &mut Numbers,
    state: &NumberState,
    t: u32,
) -> Result<Option<NumberState>, NoMemory>
    requires { AreIn numbers.old state.now }
    ensures is { IfOk result (λ found. (b : CodeBody) → Enters (entry.Finish t) b numbers.old state.now numbers.new found) }
    ensures grows { HasGrown numbers.old numbers.new }
{
    let Some(thread) = acting(state, t) else {
        return Ok(None);
    };
    if thread.blocked {
        return Ok(None);
    }
    if numbers.depth(thread.term) != 0 {
        return Ok(None);
    }
    let line = match numbers.part(thread.term) {
        Active::Ret(_) => String::new(alloc),
        Active::Throw(exn) => uncaught(alloc, t, exn)?,
        _ => return Ok(None),
    };
    let next = finished_with(alloc, numbers, state, t, line.as_str())?;
    Ok(Some(next))
}
