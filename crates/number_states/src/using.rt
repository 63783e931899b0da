ghost use Rattle.std.specs.Prelude.{◌≡◌, IfOk, map};
ghost use Rattle.std.specs.List.{AllByRecursion};
ghost use Rattle.rules_code.specs.declared.code.CodeBody.{CodeBody};
ghost use Rattle.slot_states.specs.Resting as resting;
ghost use Rattle.slot_states.specs.Resting.{frames_in};
ghost use Rattle.number_states.specs.declared.state.NumberThread.{NumberThread};
ghost use Rattle.number_states.specs.Stocks.{IsTerm};
ghost use Rattle.number_states.specs.States.{AreIn, slots, thread_of};

use crate::numbers::Numbers;
use crate::state::{NumberState, NumberThread};
use hs_base::NoMemory;
use hs_rules::LimitKind;

/// The frames of all threads that have not finished.
fn frames(numbers: &Numbers, threads: &[NumberThread]) -> Result<u64, NoMemory>
    requires { AllByRecursion (λ (th : NumberThread). IsTerm numbers.now th.term) threads.now }
    ensures { IfOk result (λ n. (b : CodeBody) → n ≡ frames_in (map (thread_of numbers.now b) threads.now)) }
{
    let mut sum: u64 = 0;
    for thread in threads {
        if !thread.finished {
            let depth = u64::from(numbers.depth(thread.term));
            sum = match sum.checked_add(depth) {
                Some(more) => more,
                None => return Err(NoMemory),
            };
        }
    }
    Ok(sum)
}

/// How much of it a state uses. More than 2^64 of it counts as want of memory.
pub fn used(kind: LimitKind, numbers: &Numbers, state: &NumberState) -> Result<u64, NoMemory>
    requires { AreIn numbers.now state.now }
    ensures { IfOk result (λ n. (b : CodeBody) → n ≡ resting.used kind (slots numbers.now b state.now)) }
{
    match kind {
        LimitKind::Threads => Ok(state.threads.len() as u64),
        LimitKind::Cells => Ok(state.cells.len() as u64),
        LimitKind::Frames => frames(numbers, state.threads.as_slice()),
        LimitKind::Output => Ok(state.printed),
    }
}
