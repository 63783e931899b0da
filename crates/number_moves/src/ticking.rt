ghost use Rattle.std.specs.Prelude.{◌≡◌, IfOk};
ghost use Rattle.rules_code.specs.declared.code.CodeBody.{CodeBody};
ghost use Rattle.hs_rules.specs.declared.entry.Entry.TheVariants as entry;
ghost use Rattle.number_states.specs.States.{AreIn};
ghost use Rattle.number_changes.specs.Moves.{Enters};

use hs_base::NoMemory;
use number_states::{NumberState, Numbers};
use std::alloc::Global;

/// The clock goes on to this moment, which is not before it.
pub fn tick(
    alloc: Global,
    numbers: &Numbers,
    state: &NumberState,
    at: u64,
) -> Result<Option<NumberState>, NoMemory>
    requires { AreIn numbers.now state.now }
    ensures { IfOk result (λ found. (b : CodeBody) → Enters (entry.Tick at) b numbers.now state.now numbers.now found) }
{
    let _ = numbers;
    if at < state.clock {
        return Ok(None);
    }
    let mut next = state.copy(alloc)?;
    next.clock = at;
    Ok(Some(next))
}
