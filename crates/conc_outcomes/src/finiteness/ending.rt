ghost use Rattle.std.specs.Prelude.{IfOk};
ghost use Rattle.rules_code.specs.declared.code.CodeBody as code;
ghost use Rattle.outcome_listing.specs.declared.bounds.Bounds as bounds;
ghost use Rattle.state_search.specs.Searching.{Searched};
ghost use Rattle.conc_outcomes.specs.finiteness.Ending.{IsRightOf};

use crate::finiteness::marks::Ends;
use crate::finiteness::walking::find_round;
use hs_base::NoMemory;
use state_search::Found;
use std::alloc::Global;

/// Whether every schedule ends of the script whose states these are: a search in depth along their moves.
pub fn ends(alloc: Global, found: &Found) -> Result<Ends, NoMemory>
    requires { (bounds : bounds.Bounds) × (b : code.CodeBody) × Searched bounds b found.now }
    ensures { IfOk result (λ e. IsRightOf found.now e) }
{
    let count = found.states.len();
    if count == 0 {
        return Ok(Ends::Never);
    }
    find_round(alloc, &found.moves, count)
}
