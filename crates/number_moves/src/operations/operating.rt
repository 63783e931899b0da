//! The operation that a thread stands at.
ghost use Rattle.std.specs.Prelude.{◌≡◌, ◌<◌, IfOk, OnOk, MatchOption, MatchBool, None, length};
ghost use Rattle.hs_rules.specs.declared.entry.Entry.TheVariants as entry;
ghost use Rattle.rules_code.specs.declared.code.CodeBody.{CodeBody};
ghost use Rattle.slot_laws.specs.SlotRules.{performs};
ghost use Rattle.slot_states.specs.entering.Entering.{entered};
ghost use Rattle.local_steps.specs.Machine.{funs_of, active_of};
ghost use Rattle.frame_stack.specs.Parts.{op_of};
ghost use Rattle.number_states.specs.Stocks.{HasGrown, IsTerm};
ghost use Rattle.number_states.specs.States.{AreIn, slots};
ghost use Rattle.number_changes.specs.Moves.{Enters};
ghost use Rattle.number_moves.specs.operations.Standing.{HasDone, IsIdle, Stands, HasTarget};

use frame_stack::{Prim, asked};
use hs_base::{NoMemory, Value, Values};
use local_steps::Active;
use number_changes::{
    CellCall, Child, acquire, acting, call, delay, fork, fork_unmask, make, new_timeout, print,
    print_error, print_line, put, tell_clock, tell_masking, throw, try_put,
};
use number_states::{NumberState, Numbers};
use std::alloc::Global;

/// An operation, and the number of the term that stands at it.
#[derive(Drop)]
pub struct Standing {
    pub term: u32,
    pub operation: Prim,
}

/// Equal values.
fn copy_values(alloc: Global, values: &[Value]) -> Result<Values, NoMemory>
    ensures { IfOk result (λ vs. vs ≡ values.now) }
{
    let mut copies = Values::new(alloc);
    for value in values {
        copies.add(value.copy(alloc)?)?;
    }
    Ok(copies)
}

/// The operation that a part is; none where its thread can't perform it.
fn operation_of(alloc: Global, part: &Active) -> Result<Option<Prim>, NoMemory>
    ensures { IfOk result (λ found. (b : CodeBody) → MatchOption found (IsIdle (active_of b part.now)) (λ p. active_of b part.now ≡ performs (op_of b p))) }
{
    match part {
        Active::Asks(primitive, values) => Ok(asked(
            *primitive,
            copy_values(alloc, values.as_slice())?,
        )),
        Active::Forks(action, env) => Ok(Some(Prim::Fork(*action, env.copy(alloc)?))),
        Active::ForksUnmask(action, env) => {
            Ok(Some(Prim::ForkUnmask(*action, env.copy(alloc)?)))
        }
        Active::Doing(_, _) => Ok(None),
        Active::Ret(_) => Ok(None),
        Active::Throw(_) => Ok(None),
    }
}

/// The operation that a thread stands at which neither has finished nor is blocked.
fn standing_at(
    alloc: Global,
    numbers: &Numbers,
    state: &NumberState,
    thread: u32,
) -> Result<Option<Standing>, NoMemory>
    requires { AreIn numbers.now state.now }
    ensures { IfOk result (λ found. MatchOption found ((b : CodeBody) → entered (funs_of b) (slots numbers.now b state.now) (entry.Op thread) ≡ None) (Stands numbers.now state.now thread)) }
{
    let Some(one) = acting(state, thread) else {
        return Ok(None);
    };
    if one.blocked {
        return Ok(None);
    }
    match operation_of(alloc, numbers.part(one.term))? {
        None => Ok(None),
        Some(operation) => Ok(Some(Standing {
            term: one.term,
            operation,
        })),
    }
}

/// Whether an operation, if it throws, throws at one of so many threads.
fn has_target(operation: &Prim, count: usize) -> bool
    ensures { MatchBool result (HasTarget count operation.now) (HasTarget count operation.now → ⊥) }
{
    match operation {
        Prim::ThrowTo(target, _) => (*target as usize) < count,
        _ => true,
    }
}

/// A thread with the term of this number performs an operation.
fn perform(
    alloc: Global,
    numbers: &mut Numbers,
    next: &mut NumberState,
    thread: u32,
    term: u32,
    operation: Prim,
) -> Result<(), NoMemory>
    requires state { AreIn numbers.old next.old }
    requires term { IsTerm numbers.old term }
    requires target { HasTarget (length next.old.threads.items) operation }
    ensures is { OnOk result (HasDone thread term operation numbers.old next.old numbers.new next.new) }
    ensures grows { HasGrown numbers.old numbers.new }
{
    match operation {
        Prim::PutStr(text) => print(alloc, numbers, next, thread, text.as_str()),
        Prim::PutStrLn(text) => print_line(alloc, numbers, next, thread, text.as_str()),
        Prim::HPutStrLn(text) => print_error(alloc, numbers, next, thread, text.as_str()),
        Prim::NewMVar(value) => make(alloc, numbers, next, thread, Some(value)),
        Prim::NewEmptyMVar => make(alloc, numbers, next, thread, None),
        Prim::TakeMVar(cell) => call(alloc, numbers, next, thread, cell, CellCall::Take),
        Prim::PutMVar(cell, value) => put(alloc, numbers, next, thread, cell, value),
        Prim::ReadMVar(cell) => call(alloc, numbers, next, thread, cell, CellCall::Read),
        Prim::TryTakeMVar(cell) => call(alloc, numbers, next, thread, cell, CellCall::TryTake),
        Prim::TryPutMVar(cell, value) => try_put(alloc, numbers, next, thread, cell, value),
        Prim::MyThreadId => next.answer(alloc, numbers, thread, Value::Thread(thread)),
        Prim::GetMaskingState => tell_masking(alloc, numbers, next, thread, term),
        Prim::ClockMicros => tell_clock(alloc, numbers, next, thread),
        Prim::ThreadDelay(micros) => delay(alloc, numbers, next, thread, micros),
        Prim::ThrowTo(target, exn) => throw(alloc, numbers, next, thread, target, exn),
        Prim::NewTimeout => new_timeout(alloc, numbers, next, thread),
        Prim::Acquired => acquire(alloc, numbers, next, thread),
        Prim::Release(_) => next.answer(alloc, numbers, thread, Value::Unit),
        Prim::Fork(action, env) => fork(alloc, numbers, next, thread, term, Child { action, env }),
        Prim::ForkUnmask(action, env) => {
            fork_unmask(alloc, numbers, next, thread, term, Child { action, env })
        }
    }
}

/// A thread performs the operation that it stands at.
pub fn operate(
    alloc: Global,
    numbers: &mut Numbers,
    state: &NumberState,
    thread: u32,
) -> Result<Option<NumberState>, NoMemory>
    requires { AreIn numbers.old state.now }
    ensures is { IfOk result (λ found. (b : CodeBody) → Enters (entry.Op thread) b numbers.old state.now numbers.new found) }
    ensures grows { HasGrown numbers.old numbers.new }
{
    let Some(found) = standing_at(alloc, numbers, state, thread)? else {
        return Ok(None);
    };
    if !has_target(&found.operation, state.threads.len()) {
        return Ok(None);
    }
    let mut next = state.copy(alloc)?;
    perform(
        alloc,
        numbers,
        &mut next,
        thread,
        found.term,
        found.operation,
    )?;
    Ok(Some(next))
}
