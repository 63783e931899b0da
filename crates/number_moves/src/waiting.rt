//! What a thread waits for no more. Where there is nothing of it nothing changes.
ghost use Rattle.std.specs.Prelude.{◌≡◌};
ghost use Rattle.rules_waiting.specs.Waiting.{withdrawn, still_asleep};
ghost use Rattle.slot_states.specs.SlotStates.{left_lines};
ghost use Rattle.number_states.specs.States.{AreIn, Becomes};
ghost use Rattle.number_moves.specs.Lines.{lines_left};

use number_states::waits::NumberCell;
use number_states::{NumberState, Numbers};

/// The thread leaves the line of each cell.
fn leave_all(cells: &mut [NumberCell], t: u32)
    ensures { cells.new ≡ lines_left t cells.old }
{
    for cell in cells.iter_mut() {
        cell.leave(t);
    }
}

/// The thread stands in no line any more.
pub fn leave_lines(numbers: &Numbers, state: &mut NumberState, t: u32)
    requires { AreIn numbers.now state.old }
    ensures { Becomes (λ b x. record x { cells = left_lines t x.cells }) numbers.now state.old numbers.now state.new }
{
    let _ = numbers;
    leave_all(state.cells.as_mut_slice(), t);
}

/// The throw of this thread is over.
pub fn withdraw(numbers: &Numbers, state: &mut NumberState, t: u32)
    requires { AreIn numbers.now state.old }
    ensures { Becomes (λ b x. record x { flight = withdrawn t x.flight }) numbers.now state.old numbers.now state.new }
{
    let _ = numbers;
    number_states::waits::withdraw(&mut state.flight, t);
}

/// The thread sleeps no more.
pub fn stop_sleeping(numbers: &Numbers, state: &mut NumberState, t: u32)
    requires { AreIn numbers.now state.old }
    ensures { Becomes (λ b x. record x { sleepers = still_asleep t x.sleepers }) numbers.now state.old numbers.now state.new }
{
    let _ = numbers;
    number_states::waits::remove(&mut state.sleepers, t);
}
