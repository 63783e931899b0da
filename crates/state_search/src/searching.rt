ghost use Rattle.std.specs.Prelude.{◌≡◌, IfOk, None};
ghost use Rattle.hs_base.specs.declared.tree.script.Script.{Script};
ghost use Rattle.rules_code.specs.Codes.{body_of};
ghost use Rattle.state_search.specs.Searching.{Searched, IsClosed, IsCodeOf, AreReached, ShowsAll, ShowsGap};

use crate::found::Found;
use hs_base::NoMemory;
use hs_rules::{Code, CodeBody};
use outcome_listing::Bounds;
use std::alloc::Global;

/// Goes over the states of the code's script in the timing of the bounds, each once, breadth first. It ends where no state
/// is left: where there are as many as may be, no more are added.
pub fn search(alloc: Global, code: &Code, bounds: &Bounds) -> Result<Found, NoMemory>
    ensures searched { IfOk result (λ f. Searched bounds.now (body_of code.now) f) }
    ensures closed { IfOk result (λ f. f.gap ≡ None → IsClosed bounds.now (body_of code.now) f) }
    ensures sound { IfOk result (λ f. (script : Script) → IsCodeOf (body_of code.now) script → AreReached bounds.now script (body_of code.now) f) }
    ensures complete { IfOk result (λ f. (script : Script) → IsCodeOf (body_of code.now) script → f.gap ≡ None → ShowsAll bounds.now script (body_of code.now) f) }
    ensures gap { IfOk result (λ f. (script : Script) → IsCodeOf (body_of code.now) script → ShowsGap bounds.now script (body_of code.now) f f.gap) }
{
    let body: &CodeBody = &code.body;
    let mut found = Found::begin(alloc, body, bounds)?;
    'states: for at in 0..bounds.states {
        if at as usize >= found.states.len() {
            break;
        }
        found.go_on(alloc, body, bounds, at)?;
    }
    Ok(found)
}
