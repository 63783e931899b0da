//! Whether nothing but a Tick can be entered.
ghost use Rattle.std.specs.Prelude.{IfOk, IsTrue};
ghost use Rattle.local_steps.specs.Machine.{funs_of};
ghost use Rattle.number_states.specs.Stocks.{HasGrown};
ghost use Rattle.number_states.specs.States.{AreIn, slots};
ghost use Rattle.search_laws.specs.Going.{IsStill};

use hs_base::NoMemory;
use number_moves::next;
use number_states::{NumberState, Numbers};
use rules_code::CodeBody;
use state_search::entries_to_try;
use std::alloc::Global;

/// Whether no entry but a Tick has a next state. Where memory runs out the tables may have more numbers than before.
pub fn is_still(
    alloc: Global,
    body: &CodeBody,
    numbers: &mut Numbers,
    state: &NumberState,
) -> Result<bool, NoMemory>
    requires { AreIn numbers.old state.now }
    ensures still { IfOk result (λ yes. IsTrue yes → IsStill (funs_of body.now) (slots numbers.old body.now state.now)) }
    ensures grows { HasGrown numbers.old numbers.new }
{
    let entries = entries_to_try(alloc, state)?;
    for entry in entries.as_slice() {
        if next(alloc, body, numbers, state, *entry)?.is_some() {
            return Ok(false);
        }
    }
    Ok(true)
}
