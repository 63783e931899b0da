//! Operations on cells.
ghost use Rattle.std.specs.Prelude.{◌≡◌, ◌++◌, ℕ, IfOk, OnOk, length, slice_set};
ghost use Rattle.rules_meaning.specs.Values.{value_of};
ghost use Rattle.rules_waiting.specs.OneCell as one;
ghost use Rattle.hs_laws.specs.CellLaw as cell_law;
ghost use Rattle.slot_states.specs.mapping.Mapped.{map_some, map_call, map_answer, map_replies};
ghost use Rattle.slot_states.specs.SlotStates.{makes, called, replied, told_all};
ghost use Rattle.number_states.specs.waits.Places.{answer_of, answers};
ghost use Rattle.number_states.specs.Stocks.{HasGrown, value_at};
ghost use Rattle.number_states.specs.States.{AreIn, Becomes, IsValueWithin};
ghost use Rattle.number_changes.specs.Calling.{call_of, cell_in, CallIsWithin, AreRepliesWithin};

use hs_base::{NoMemory, Value};
use hs_items::Shared;
use number_states::waits::{Answer, NumberCell, Reply};
use number_states::{NumberState, Numbers};
use std::alloc::Global;

/// A call on a cell. A value is a number.
#[derive(Clone, Copy, Debug)]
pub enum CellCall {
    Take,
    Read,
    Put(u32),
    TryTake,
    TryPut(u32),
}

/// What a call does to a cell. Whom it answers comes at the end of the replies.
fn call_one(
    cell: &mut NumberCell,
    thread: u32,
    call: CellCall,
    replies: &mut Vec<Reply>,
) -> Result<(), NoMemory>
    ensures cell { OnOk result (cell.new ≡ (one.call (call_of thread call) cell.old).cell) }
    ensures replies { OnOk result (answers replies.new.items ≡ answers replies.old.items ++ (one.call (call_of thread call) cell.old).replies) }
{
    match call {
        CellCall::Take => cell.take(thread, replies),
        CellCall::Read => cell.read(thread, replies),
        CellCall::Put(value) => cell.put(thread, value, replies),
        CellCall::TryTake => cell.try_take(thread, replies),
        CellCall::TryPut(value) => cell.try_put(thread, value, replies),
    }
}

/// A call on the cell of a number, or an empty one if there is none. Answers whom it answers.
fn call_at(
    alloc: Global,
    cells: &mut Vec<NumberCell>,
    cell: u32,
    thread: u32,
    call: CellCall,
) -> Result<Vec<Reply>, NoMemory>
    ensures cells { OnOk result (cells.new.items ≡ slice_set cells.old.items cell (one.call (call_of thread call) (cell_in cells.old.items cell)).cell) }
    ensures replies { IfOk result (λ rs. answers rs.items ≡ (one.call (call_of thread call) (cell_in cells.old.items cell)).replies) }
{
    let mut replies = Vec::new(alloc);
    match cells.get_mut(cell as usize) {
        Some(found) => call_one(found, thread, call, &mut replies)?,
        None => {
            let mut empty = NumberCell::made(alloc, None);
            call_one(&mut empty, thread, call, &mut replies)?;
        }
    }
    Ok(replies)
}

/// The value of a number, a unit where there is none.
fn value_of_number(alloc: Global, numbers: &Numbers, number: u32) -> Result<Value, NoMemory>
    ensures { IfOk result (λ v. value_of v ≡ value_at numbers.now number) }
{
    match numbers.get_value(number) {
        Some(value) => value.copy(alloc),
        None => Ok(Value::Unit),
    }
}

/// The value by which a thread learns an answer of a cell.
fn told(alloc: Global, numbers: &Numbers, answer: Answer) -> Result<Value, NoMemory>
    ensures { IfOk result (λ v. (m : ℕ) → value_of v ≡ cell_law.told m (map_answer (value_at numbers.now) (answer_of answer))) }
{
    match answer {
        Answer::Took(value) => value_of_number(alloc, numbers, value),
        Answer::Saw(value) => value_of_number(alloc, numbers, value),
        Answer::Gave => Ok(Value::Unit),
        Answer::TriedTake(None) => Ok(Value::Nothing),
        Answer::TriedTake(Some(value)) => {
            let value = value_of_number(alloc, numbers, value)?;
            Ok(Value::Just(Shared::new(alloc, value)?))
        }
        Answer::TriedPut(done) => Ok(Value::Bool(done)),
    }
}

/// Each of these threads gets its answer, in order.
fn answer_all(
    alloc: Global,
    numbers: &mut Numbers,
    state: &mut NumberState,
    replies: &[Reply],
) -> Result<(), NoMemory>
    requires state { AreIn numbers.old state.old }
    requires replies { AreRepliesWithin (length numbers.old.values) (answers replies.now) }
    ensures is { OnOk result ((m : ℕ) → Becomes (λ b x. record x { threads = replied m (map_replies (value_at numbers.old) (answers replies.now)) x.threads }) numbers.old state.old numbers.new state.new) }
    ensures grows { HasGrown numbers.old numbers.new }
{
    for reply in replies {
        let value = told(alloc, numbers, reply.answer)?;
        state.answer(alloc, numbers, reply.thread, value)?;
    }
    Ok(())
}

/// Each of these threads gets its answer, in order; where there is none, the thread that called is blocked.
fn tell_all(
    alloc: Global,
    numbers: &mut Numbers,
    state: &mut NumberState,
    thread: u32,
    replies: &[Reply],
) -> Result<(), NoMemory>
    requires state { AreIn numbers.old state.old }
    requires replies { AreRepliesWithin (length numbers.old.values) (answers replies.now) }
    ensures is { OnOk result ((m : ℕ) → Becomes (λ b x. record x { threads = told_all thread m (map_replies (value_at numbers.old) (answers replies.now)) x.threads }) numbers.old state.old numbers.new state.new) }
    ensures grows { HasGrown numbers.old numbers.new }
{
    if replies.is_empty() {
        state.block(numbers, thread);
        return Ok(());
    }
    answer_all(alloc, numbers, state, replies)
}

/// A thread makes this call on a cell: whom the cell answers gets its answer, or the thread is blocked.
pub fn call(
    alloc: Global,
    numbers: &mut Numbers,
    state: &mut NumberState,
    thread: u32,
    cell: u32,
    call: CellCall,
) -> Result<(), NoMemory>
    requires state { AreIn numbers.old state.old }
    requires value { CallIsWithin (length numbers.old.values) call }
    ensures is { OnOk result (Becomes (λ b. called thread cell (map_call (value_at numbers.old) (call_of thread call))) numbers.old state.old numbers.new state.new) }
    ensures grows { HasGrown numbers.old numbers.new }
{
    let replies = call_at(alloc, &mut state.cells, cell, thread, call)?;
    tell_all(alloc, numbers, state, thread, replies.as_slice())
}

/// A thread puts a value to a cell.
pub fn put(
    alloc: Global,
    numbers: &mut Numbers,
    state: &mut NumberState,
    thread: u32,
    cell: u32,
    value: Value,
) -> Result<(), NoMemory>
    requires { AreIn numbers.old state.old }
    ensures is { OnOk result (Becomes (λ b. called thread cell (one.Put thread (value_of value))) numbers.old state.old numbers.new state.new) }
    ensures grows { HasGrown numbers.old numbers.new }
{
    let number = numbers.value(alloc, value)?;
    call(alloc, numbers, state, thread, cell, CellCall::Put(number))
}

/// A thread puts a value to a cell, where that is empty.
pub fn try_put(
    alloc: Global,
    numbers: &mut Numbers,
    state: &mut NumberState,
    thread: u32,
    cell: u32,
    value: Value,
) -> Result<(), NoMemory>
    requires { AreIn numbers.old state.old }
    ensures is { OnOk result (Becomes (λ b. called thread cell (one.Try_put thread (value_of value))) numbers.old state.old numbers.new state.new) }
    ensures grows { HasGrown numbers.old numbers.new }
{
    let number = numbers.value(alloc, value)?;
    call(
        alloc,
        numbers,
        state,
        thread,
        cell,
        CellCall::TryPut(number),
    )
}

/// The number of the value that a cell is made with.
fn content(
    alloc: Global,
    numbers: &mut Numbers,
    value: Option<Value>,
) -> Result<Option<u32>, NoMemory>
    ensures within { IfOk result (λ o. IsValueWithin (length numbers.new.values) o) }
    ensures is { IfOk result (λ o. map_some (value_at numbers.new) o ≡ map_some value_of value) }
    ensures grows { HasGrown numbers.old numbers.new }
{
    match value {
        None => Ok(None),
        Some(value) => Ok(Some(numbers.value(alloc, value)?)),
    }
}

/// A thread makes a cell with this content.
pub fn make(
    alloc: Global,
    numbers: &mut Numbers,
    state: &mut NumberState,
    thread: u32,
    value: Option<Value>,
) -> Result<(), NoMemory>
    requires { AreIn numbers.old state.old }
    ensures is { OnOk result (Becomes (λ b. makes thread (map_some value_of value)) numbers.old state.old numbers.new state.new) }
    ensures grows { HasGrown numbers.old numbers.new }
{
    let Ok(cell) = u32::try_from(state.cells.len()) else {
        return Err(NoMemory);
    };
    let content = content(alloc, numbers, value)?;
    state.cells.reserve(1)?;
    state.cells.push_reserved(NumberCell::made(alloc, content));
    state.answer(alloc, numbers, thread, Value::Cell(cell))
}
