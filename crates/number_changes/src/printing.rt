ghost use Rattle.std.specs.Prelude.{◌≡◌, ◌++◌, ◌+◌, [], IfOk, OnOk, Some, length};
ghost use Rattle.hs_rules.specs.Primitives.{line_feed};
ghost use Rattle.rules_code.specs.declared.code.CodeBody.{CodeBody};
ghost use Rattle.slot_states.specs.SlotStates.{prints};
ghost use Rattle.number_states.specs.Stocks.{HasGrown};
ghost use Rattle.number_states.specs.States.{AreIn};
ghost use Rattle.number_changes.specs.Moves.{Makes};

use hs_base::{NoMemory, Value};
use number_states::{NumberState, Numbers};
use std::alloc::Global;

/// So many bytes more.
fn count(printed: u64, text: &str) -> Result<u64, NoMemory>
    ensures { IfOk result (λ n. n ≡ printed + length text.now) }
{
    match printed.checked_add(text.len() as u64) {
        Some(more) => Ok(more),
        None => Err(NoMemory),
    }
}

/// A thread prints a text to standard output.
pub fn print(
    alloc: Global,
    numbers: &mut Numbers,
    state: &mut NumberState,
    thread: u32,
    text: &str,
) -> Result<(), NoMemory>
    requires { AreIn numbers.old state.old }
    ensures is { OnOk result ((b : CodeBody) → Makes (λ x. Some (prints thread (length text.now) x)) b numbers.old state.old text.now [] numbers.new state.new) }
    ensures grows { HasGrown numbers.old numbers.new }
{
    state.printed = count(state.printed, text)?;
    state.output = numbers.text_and(alloc, state.output, text)?;
    state.answer(alloc, numbers, thread, Value::Unit)
}

/// A thread prints a text and a line feed to standard output.
pub fn print_line(
    alloc: Global,
    numbers: &mut Numbers,
    state: &mut NumberState,
    thread: u32,
    text: &str,
) -> Result<(), NoMemory>
    requires { AreIn numbers.old state.old }
    ensures is { OnOk result ((b : CodeBody) → Makes (λ x. Some (prints thread (length text.now + 1) x)) b numbers.old state.old (text.now ++ line_feed) [] numbers.new state.new) }
    ensures grows { HasGrown numbers.old numbers.new }
{
    let line = format!(in alloc; "{text}\n")?;
    print(alloc, numbers, state, thread, line.as_str())
}

/// A thread prints a text and a line feed to standard error.
pub fn print_error(
    alloc: Global,
    numbers: &mut Numbers,
    state: &mut NumberState,
    thread: u32,
    text: &str,
) -> Result<(), NoMemory>
    requires { AreIn numbers.old state.old }
    ensures is { OnOk result ((b : CodeBody) → Makes (λ x. Some (prints thread (length text.now + 1) x)) b numbers.old state.old [] (text.now ++ line_feed) numbers.new state.new) }
    ensures grows { HasGrown numbers.old numbers.new }
{
    let line = format!(in alloc; "{text}\n")?;
    state.printed = count(state.printed, line.as_str())?;
    state.errors = numbers.text_and(alloc, state.errors, line.as_str())?;
    state.answer(alloc, numbers, thread, Value::Unit)
}
