ghost use Rattle.std.specs.Prelude.{◌≡◌, [], IfOk};
ghost use Rattle.rules_code.specs.declared.code.CodeBody.{CodeBody};
ghost use Rattle.local_steps.specs.Machine.{act_of};
ghost use Rattle.number_states.specs.Stocks.{HasGrown, text_at};
ghost use Rattle.number_states.specs.States.{AreIn, slots, first_slots};

use crate::numbers::Numbers;
use crate::state::{NumberState, NumberThread};
use hs_base::{NoMemory, Txt};
use rules_code::ActId;
use std::alloc::Global;

/// The state that a run begins with: the main thread alone is to do this action.
pub fn first(alloc: Global, numbers: &mut Numbers, main: ActId) -> Result<NumberState, NoMemory>
    ensures is { IfOk result (λ x. (b : CodeBody) → slots numbers.new b x ≡ first_slots (act_of b main)) }
    ensures there { IfOk result (λ x. AreIn numbers.new x) }
    ensures output { IfOk result (λ x. text_at numbers.new x.output ≡ []) }
    ensures errors { IfOk result (λ x. text_at numbers.new x.errors ≡ []) }
    ensures grows { HasGrown numbers.old numbers.new }
{
    let term = numbers.begun(alloc, main)?;
    let nothing = numbers.text(alloc, Txt::of(alloc, "")?)?;
    let mut threads = Vec::new(alloc);
    threads.reserve(1)?;
    threads.push_reserved(NumberThread {
        term,
        blocked: false,
        finished: false,
    });
    Ok(NumberState {
        threads,
        cells: Vec::new(alloc),
        flight: Vec::new(alloc),
        sleepers: Vec::new(alloc),
        clock: 0,
        instances: 0,
        timeouts: 0,
        printed: 0,
        output: nothing,
        errors: nothing,
    })
}
