ghost use Rattle.std.specs.Prelude.{◌≡◌, MatchOption, Option, slice_get, None};
ghost use Rattle.rules_code.specs.declared.code.CodeBody.{CodeBody};
ghost use Rattle.slot_states.specs.SlotStates.{SlotThread, SlotState};
ghost use Rattle.slot_states.specs.entering.Entering.{on_thread};
ghost use Rattle.number_states.specs.Stocks.{Stock};
ghost use Rattle.number_states.specs.States.{slots};
ghost use Rattle.number_changes.specs.Moves.{IsActing};

use number_states::{NumberState, NumberThread};

/// The thread of a number, where it is there and has not finished.
pub fn acting(state: &NumberState, t: u32) -> Option<NumberThread>
    ensures { MatchOption result ((g : Stock) (b : CodeBody) (k : SlotThread → Option SlotState) → on_thread (slice_get (slots g b state.now).threads t) k ≡ None) (λ th. IsActing state.now t th) }
{
    match state.threads.get(t as usize) {
        None => None,
        Some(thread) => { if thread.finished { None } else { Some(*thread) } }
    }
}
