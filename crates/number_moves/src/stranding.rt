//! A Stranded: where all rest and nobody sleeps, all that wait at a cell and can be interrupted, in order of number.
ghost use Rattle.std.specs.Prelude.{◌≡◌, IfOk, OnOk};
ghost use Rattle.rules_meaning.specs.Values.{values_of};
ghost use Rattle.rules_expansion.specs.declared.primitive.Primitive.TheVariants.{TakeMVar, PutMVar, ReadMVar};
ghost use Rattle.rules_code.specs.declared.code.CodeBody.{CodeBody};
ghost use Rattle.hs_rules.specs.declared.entry.Entry.TheVariants as entry;
ghost use Rattle.hs_rules.specs.Entries as entries;
ghost use Rattle.local_steps.specs.Machine.{active_of};
ghost use Rattle.slot_states.specs.SlotStates.{strands};
ghost use Rattle.slot_states.specs.entering.Entering as entering;
ghost use Rattle.slot_states.specs.entering.Entering.{rest_from, waiting_from};
ghost use Rattle.number_states.specs.Stocks.{HasGrown, IsTerm};
ghost use Rattle.number_states.specs.States.{AreIn, Becomes, slots, thread_of};
ghost use Rattle.number_changes.specs.Moves.{Enters};
ghost use Rattle.number_moves.specs.Lines.{is_cell_first};

use crate::receiving::is_receptive;
use crate::waiting::leave_lines;
use hs_base::{Exn, Mask, NoMemory, Value};
use local_steps::Active;
use number_states::waits::first_to;
use number_states::{NumberState, NumberThread, Numbers};
use rules_code::Primitive;
use std::alloc::Global;

/// Whether a thread has finished, or is blocked and can receive nothing that is in flight to it.
fn rests(numbers: &Numbers, state: &NumberState, t: u32, thread: NumberThread) -> bool
    requires { IsTerm numbers.now thread.term }
    ensures { (b : CodeBody) → result ≡ entering.rests (slots numbers.now b state.now).flight t (thread_of numbers.now b thread) }
{
    if thread.finished {
        return true;
    }
    if !thread.blocked {
        return false;
    }
    if !is_receptive(numbers, thread) {
        return true;
    }
    match first_to(state.flight.as_slice(), t) {
        None => true,
        Some(_) => false,
    }
}

/// Whether all threads rest.
fn all_rest(numbers: &Numbers, state: &NumberState) -> Result<bool, NoMemory>
    requires { AreIn numbers.now state.now }
    ensures { IfOk result (λ r. (b : CodeBody) → r ≡ rest_from (slots numbers.now b state.now).flight 0 (slots numbers.now b state.now).threads) }
{
    let mut t: u32 = 0;
    for thread in &state.threads {
        if !rests(numbers, state, t, *thread) {
            return Ok(false);
        }
        match t.checked_add(1) {
            None => return Err(NoMemory),
            Some(next) => t = next,
        }
    }
    Ok(true)
}

/// Whether the first of these values is a cell.
fn begins_with_cell(values: &[Value]) -> bool
    ensures { result ≡ is_cell_first (values_of values.now) }
{
    match values.first() {
        Some(Value::Cell(_)) => true,
        _ => false,
    }
}

/// Whether these values are one cell, which a take and a read wait at.
fn is_one_cell(values: &[Value]) -> bool
    ensures take { result ≡ entering.waits_to TakeMVar (values_of values.now) }
    ensures read { result ≡ entering.waits_to ReadMVar (values_of values.now) }
{
    if values.len() != 1 {
        return false;
    }
    begins_with_cell(values)
}

/// Whether these values are a cell and one more, which a put waits at.
fn is_cell_and_one(values: &[Value]) -> bool
    ensures { result ≡ entering.waits_to PutMVar (values_of values.now) }
{
    if values.len() != 2 {
        return false;
    }
    begins_with_cell(values)
}

/// Whether a primitive waits at a cell, where a thread is blocked at it.
fn waits_to(primitive: Primitive, values: &[Value]) -> bool
    ensures { result ≡ entering.waits_to primitive (values_of values.now) }
{
    match primitive {
        Primitive::TakeMVar => is_one_cell(values),
        Primitive::ReadMVar => is_one_cell(values),
        Primitive::PutMVar => is_cell_and_one(values),
        _ => false,
    }
}

/// Whether a blocked thread with this part waits at a cell.
fn waits_at_cell(part: &Active) -> bool
    ensures { (b : CodeBody) → result ≡ entering.waits_at_cell (active_of b part.now) }
{
    match part {
        Active::Asks(primitive, values) => waits_to(*primitive, values.as_slice()),
        _ => false,
    }
}

/// Whether a blocked thread in this masking state can be interrupted.
fn is_interruptible(mask: Mask) -> bool
    ensures { result ≡ entries.is_interruptible mask }
{
    !matches!(mask, Mask::Uninterruptible)
}

/// Whether a thread is blocked at a cell and can be interrupted.
fn waits_open(numbers: &Numbers, thread: NumberThread) -> bool
    requires { IsTerm numbers.now thread.term }
    ensures { (b : CodeBody) → result ≡ entering.waits_open (thread_of numbers.now b thread) }
{
    if !thread.blocked {
        return false;
    }
    let waits = waits_at_cell(numbers.part(thread.term));
    let open = is_interruptible(numbers.mask(thread.term));
    waits && open
}

/// The threads that are blocked at a cell and can be interrupted, in order.
fn waiting(alloc: Global, numbers: &Numbers, state: &NumberState) -> Result<Vec<u32>, NoMemory>
    requires { AreIn numbers.now state.now }
    ensures { IfOk result (λ ts. (b : CodeBody) → ts.items ≡ waiting_from 0 (slots numbers.now b state.now).threads) }
{
    let mut waiting = Vec::new(alloc);
    let mut t: u32 = 0;
    for thread in &state.threads {
        if waits_open(numbers, *thread) {
            waiting.reserve(1)?;
            waiting.push_reserved(t);
        }
        match t.checked_add(1) {
            None => return Err(NoMemory),
            Some(next) => t = next,
        }
    }
    Ok(waiting)
}

/// These threads throw that they are blocked indefinitely, in order, and stand in no line any more.
fn strand_all(
    alloc: Global,
    numbers: &mut Numbers,
    state: &mut NumberState,
    threads: &[u32],
) -> Result<(), NoMemory>
    requires { AreIn numbers.old state.old }
    ensures is { OnOk result (Becomes (λ b. strands threads.now) numbers.old state.old numbers.new state.new) }
    ensures grows { HasGrown numbers.old numbers.new }
{
    for thread in threads {
        state.resume(
            alloc,
            numbers,
            *thread,
            Active::Throw(Exn::BlockedIndefinitely),
        )?;
        leave_lines(numbers, state, *thread);
    }
    Ok(())
}

/// All that wait at a cell and can be interrupted, where all rest and nobody sleeps.
pub fn strand(
    alloc: Global,
    numbers: &mut Numbers,
    state: &NumberState,
) -> Result<Option<NumberState>, NoMemory>
    requires { AreIn numbers.old state.now }
    ensures is { IfOk result (λ found. (b : CodeBody) → Enters entry.Stranded b numbers.old state.now numbers.new found) }
    ensures grows { HasGrown numbers.old numbers.new }
{
    if state.sleepers.len() != 0 {
        return Ok(None);
    }
    if !all_rest(numbers, state)? {
        return Ok(None);
    }
    let stranded = waiting(alloc, numbers, state)?;
    if stranded.len() == 0 {
        return Ok(None);
    }
    let mut next = state.copy(alloc)?;
    strand_all(alloc, numbers, &mut next, stranded.as_slice())?;
    Ok(Some(next))
}
