ghost use Rattle.std.specs.Prelude.{◌<◌, [], OnOk, length};
ghost use Rattle.rules_code.specs.declared.code.CodeBody.{CodeBody};
ghost use Rattle.slot_states.specs.SlotStates.{throws_at};
ghost use Rattle.slot_states.specs.entering.Operating.{thrown};
ghost use Rattle.number_states.specs.Stocks.{HasGrown};
ghost use Rattle.number_states.specs.States.{AreIn, Becomes};
ghost use Rattle.number_changes.specs.Moves.{Makes};

use hs_base::{Exn, NoMemory, Value};
use local_steps::Active;
use number_states::waits::Thrown;
use number_states::{NumberState, Numbers};
use std::alloc::Global;

/// A thread waits until another receives its exception.
fn throw_at(
    alloc: Global,
    numbers: &mut Numbers,
    state: &mut NumberState,
    thrower: u32,
    target: u32,
    exn: Exn,
) -> Result<(), NoMemory>
    requires { AreIn numbers.old state.old }
    ensures is { OnOk result (Becomes (λ b. throws_at thrower target exn) numbers.old state.old numbers.new state.new) }
    ensures grows { HasGrown numbers.old numbers.new }
{
    let exn = numbers.exception(alloc, exn)?;
    state.flight.reserve(1)?;
    state.flight.push_reserved(Thrown {
        thrower,
        target,
        exn,
    });
    state.block(numbers, thrower);
    Ok(())
}

/// A thread throws an exception at one that is there: itself, one that has finished, or another.
pub fn throw(
    alloc: Global,
    numbers: &mut Numbers,
    state: &mut NumberState,
    thread: u32,
    target: u32,
    exn: Exn,
) -> Result<(), NoMemory>
    requires state { AreIn numbers.old state.old }
    requires there { target < length state.old.threads.items }
    ensures is { OnOk result ((b : CodeBody) → Makes (thrown thread target exn) b numbers.old state.old [] [] numbers.new state.new) }
    ensures grows { HasGrown numbers.old numbers.new }
{
    if target == thread {
        return state.resume(alloc, numbers, thread, Active::Throw(exn));
    }
    if state.threads[target as usize].finished {
        return state.answer(alloc, numbers, thread, Value::Unit);
    }
    throw_at(alloc, numbers, state, thread, target, exn)
}
