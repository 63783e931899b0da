//! A Receive and a Wake.
ghost use Rattle.std.specs.Prelude.{◌≡◌, ◌<◌, IfOk, length};
ghost use Rattle.rules_code.specs.declared.code.CodeBody.{CodeBody};
ghost use Rattle.hs_rules.specs.declared.entry.Entry.TheVariants as entry;
ghost use Rattle.hs_rules.specs.Entries as entries;
ghost use Rattle.local_steps.specs.Machine.{active_of};
ghost use Rattle.slot_states.specs.SlotStates.{receives, wakes};
ghost use Rattle.slot_states.specs.Resting as resting;
ghost use Rattle.number_states.specs.Stocks.{HasGrown, IsTerm, exception_at};
ghost use Rattle.number_states.specs.States.{AreIn, Becomes, thread_of};
ghost use Rattle.number_changes.specs.Moves.{Enters};

use crate::waiting::{leave_lines, stop_sleeping, withdraw};
use hs_base::{Exn, Mask, NoMemory, Value};
use local_steps::Active;
use number_changes::acting;
use number_states::waits::{Thrown, due_of, first_to};
use number_states::{NumberState, NumberThread, Numbers};
use std::alloc::Global;

/// Whether a thread that is blocked or not, in this masking state, may be reached by an exception.
fn is_open(blocked: bool, mask: Mask) -> bool
    ensures { result ≡ entries.is_open blocked mask }
{
    match mask {
        Mask::Unmasked => true,
        Mask::Masked => blocked,
        Mask::Uninterruptible => false,
    }
}

/// Whether a part is an exception.
fn is_throw(part: &Active) -> bool
    ensures { (b : CodeBody) → result ≡ resting.is_throw (active_of b part.now) }
{
    matches!(part, Active::Throw(_))
}

/// Whether a thread that has not finished can receive an exception.
pub fn is_receptive(numbers: &Numbers, thread: NumberThread) -> bool
    requires { IsTerm numbers.now thread.term }
    ensures { (b : CodeBody) → result ≡ resting.is_receptive (thread_of numbers.now b thread) }
{
    let throws = is_throw(numbers.part(thread.term));
    let open = is_open(thread.blocked, numbers.mask(thread.term));
    !throws && open
}

/// The exception of a number that is there.
fn exception(alloc: Global, numbers: &Numbers, number: u32) -> Result<Exn, NoMemory>
    requires { number < length numbers.now.exceptions }
    ensures { IfOk result (λ e. e ≡ exception_at numbers.now number) }
{
    match numbers.get_exception(number) {
        Some(exn) => exn.copy(alloc),
        None => unreachable!(),
    }
}

/// The thread receives this exception, which is in flight.
fn received(
    alloc: Global,
    numbers: &mut Numbers,
    state: &NumberState,
    t: u32,
    thrown: Thrown,
) -> Result<NumberState, NoMemory>
    requires state { AreIn numbers.old state.now }
    requires exn { thrown.exn < length numbers.old.exceptions }
    ensures is { IfOk result (λ y. Becomes (λ b. receives t thrown.thrower (exception_at numbers.old thrown.exn)) numbers.old state.now numbers.new y) }
    ensures grows { HasGrown numbers.old numbers.new }
{
    let exn = exception(alloc, numbers, thrown.exn)?;
    let mut next = state.copy(alloc)?;
    next.answer(alloc, numbers, thrown.thrower, Value::Unit)?;
    next.resume(alloc, numbers, t, Active::Throw(exn))?;
    leave_lines(numbers, &mut next, t);
    withdraw(numbers, &mut next, thrown.thrower);
    withdraw(numbers, &mut next, t);
    stop_sleeping(numbers, &mut next, t);
    Ok(next)
}

/// The first exception in flight to a receptive thread.
pub fn receive(
    alloc: Global,
    numbers: &mut Numbers,
    state: &NumberState,
    t: u32,
) -> Result<Option<NumberState>, NoMemory>
    requires { AreIn numbers.old state.now }
    ensures is { IfOk result (λ found. (b : CodeBody) → Enters (entry.Receive t) b numbers.old state.now numbers.new found) }
    ensures grows { HasGrown numbers.old numbers.new }
{
    let Some(thread) = acting(state, t) else {
        return Ok(None);
    };
    if !is_receptive(numbers, thread) {
        return Ok(None);
    }
    let Some(thrown) = first_to(state.flight.as_slice(), t) else {
        return Ok(None);
    };
    let next = received(alloc, numbers, state, t, thrown)?;
    Ok(Some(next))
}

/// The sleeper wakes.
fn woken(
    alloc: Global,
    numbers: &mut Numbers,
    state: &NumberState,
    t: u32,
) -> Result<NumberState, NoMemory>
    requires { AreIn numbers.old state.now }
    ensures is { IfOk result (λ y. Becomes (λ b. wakes t) numbers.old state.now numbers.new y) }
    ensures grows { HasGrown numbers.old numbers.new }
{
    let mut next = state.copy(alloc)?;
    next.answer(alloc, numbers, t, Value::Unit)?;
    stop_sleeping(numbers, &mut next, t);
    Ok(next)
}

/// A sleeper that is due.
pub fn wake(
    alloc: Global,
    numbers: &mut Numbers,
    state: &NumberState,
    t: u32,
) -> Result<Option<NumberState>, NoMemory>
    requires { AreIn numbers.old state.now }
    ensures is { IfOk result (λ found. (b : CodeBody) → Enters (entry.Wake t) b numbers.old state.now numbers.new found) }
    ensures grows { HasGrown numbers.old numbers.new }
{
    let Some(due) = due_of(state.sleepers.as_slice(), t) else {
        return Ok(None);
    };
    if state.clock < due {
        return Ok(None);
    }
    let next = woken(alloc, numbers, state, t)?;
    Ok(Some(next))
}
