//! What a row comes to.
ghost use Rattle.std.specs.Prelude.{◌≡◌, ◌<◌, ◌≤◌, ◌↔◌, IfOk, IsTrue};
ghost use Rattle.rules_code.specs.Codes.{body_of};
ghost use Rattle.frame_stack.specs.Parts.{IsOp, IsThrow, Meets};

use crate::flaw::Flaw;
use crate::row::{After, Row};
use crate::shown::Shown;
use crate::thread::{Thread, go_on, main_thread};
use frame_stack::{Control, Stack};
use hs_base::{Exn, Value};
use hs_compile::compile;
use rules_code::Code;
use std::alloc::Global;

/// What a row comes to, as its last line says it.
pub fn outcome(alloc: Global, row: &Row) -> Result<String, Flaw> {
    match compile(alloc, row.script.as_bytes()) {
        Ok(code) => came(alloc, row, &code),
        Err(_) => Err(Flaw::Says("a script is refused")),
    }
}

// The same of its code.
fn came(alloc: Global, row: &Row, code: &Code) -> Result<String, Flaw> {
    let thread = main_thread(alloc, code, row.mask)?;
    let budget = row.budget.clamp(1, 1024);
    let (thread, steps) = slices(alloc, code, thread, budget, row.slices)?;
    after_slices(alloc, row, thread, steps)
}

// Does to a thread what a row says, and says what that comes to.
fn after_slices(alloc: Global, row: &Row, thread: Thread, steps: u64) -> Result<String, Flaw> {
    let Thread { mut stack, of: _ } = thread;
    if all_done(&mut stack, &row.then) {
        said(alloc, &stack, steps)
    } else {
        Err(Flaw::Says("a stack can't do what a row says"))
    }
}

fn all_done(stack: &mut Stack, then: &[After]) -> bool {
    for after in then {
        if !did(stack, *after) {
            return false;
        }
    }
    true
}

// A stack in words.
fn said(alloc: Global, stack: &Stack, steps: u64) -> Result<String, Flaw> {
    let shown = Shown {
        steps,
        control: stack.control(),
        mask: stack.mask(),
        frames: stack.frames(),
    };
    Ok(format!(in alloc; "{shown}")?)
}

// Does so many slices of a thread, or as many as it goes on, and answers it with how many rules that were.
fn slices(
    alloc: Global,
    code: &Code,
    thread: Thread,
    budget: u32,
    most: u32,
) -> Result<(Thread, u64), Flaw>
    requires of { thread.of.value ≡ body_of code.now }
    requires some { 0 < budget }
    requires few { budget ≤ 1024 }
{
    let mut thread = thread;
    let mut steps = 0u64;
    for _ in 0..most {
        let (next, done) = go_on(alloc, code, thread, budget)?;
        thread = next;
        if done == 0 {
            return Ok((thread, steps));
        }
        steps = steps.saturating_add(done as u64);
    }
    Ok((thread, steps))
}

// Does the next thing to a stack, if it can.
fn did(stack: &mut Stack, after: After) -> bool {
    match after {
        After::Pop if meets(stack) => stack.pop_step(),
        After::Answer if stands(stack) => stack.answer(Value::Unit),
        After::Receive if !throws(stack) => stack.receive(Exn::UserInterrupt),
        _ => return false,
    }
    true
}

// Whether a value or an exception stands in a frame.
fn meets(stack: &Stack) -> bool
    ensures { IsTrue result ↔ Meets stack.now }
{
    match stack.control() {
        Control::Ret(_) => stack.frames() != 0,
        Control::Throw(_) => stack.frames() != 0,
        _ => false,
    }
}

fn stands(stack: &Stack) -> bool
    ensures { IsTrue result ↔ IsOp stack.now.control }
{
    matches!(stack.control(), Control::Op(_))
}

fn throws(stack: &Stack) -> bool
    ensures { IsTrue result ↔ IsThrow stack.now.control }
{
    matches!(stack.control(), Control::Throw(_))
}
