//! The whole search.
ghost use Rattle.std.specs.Prelude.{◌≡◌, ◌≤◌, IfOk, length};
ghost use Rattle.hs_base.specs.declared.tree.script.Script.{Script};
ghost use Rattle.rules_code.specs.Codes.{body_of};
ghost use Rattle.state_search.specs.Searching.{IsCodeOf};
ghost use Rattle.conc_outcomes.specs.Exploring.{Explores};

use crate::ends::endless;
use crate::extent::extent;
use crate::finiteness::ends;
use crate::listing::{endings, outcomes};
use crate::paths::{Bounded, Paths};
use hs_base::NoMemory;
use hs_rules::Code;
use outcome_listing::{Bounds, Explored};
use rules_code::CodeBody;
use state_search::{Found, search};
use std::alloc::Global;

/// How many states were found.
fn count(found: &Found, bounds: &Bounds) -> u32
    requires { length found.now.states ≤ bounds.now.states }
    ensures { result ≡ length found.now.states }
{
    let states = found.states.len();
    prove!(states <= bounds.states as usize);
    states as u32
}

/// Every outcome of the code's script in the timing of the bounds, each with a run that comes to it; why there may be others, if
/// there may; and whether every schedule ends.
///
/// It ends: each state is gone on from once. It takes memory for each state; want of memory is the only error.
pub fn explore(alloc: Global, code: &Code, bounds: &Bounds) -> Result<Explored, NoMemory>
    ensures { IfOk result (λ x. (script : Script) → IsCodeOf (body_of code.now) script → Explores bounds.now script (body_of code.now) x) }
{
    let body: &CodeBody = &code.body;
    let found = search(alloc, code, bounds)?;
    let endings = endings(alloc, &found)?;
    let ends = ends(alloc, &found)?;
    let count = count(&found, bounds);
    let Found {
        mut numbers,
        states,
        origins,
        moves,
        gap,
        ..
    } = found;
    endings.are_rising();
    let bounded = Bounded { body, bounds };
    let extent = extent(alloc, bounded, &mut numbers, &states, &origins, &gap)?;
    let outcomes = outcomes(alloc, body, bounds, &mut numbers, &origins, &endings)?;
    let paths = Paths {
        origins: &origins,
        moves: &moves,
    };
    let endless = endless(alloc, bounded, &mut numbers, paths, &gap, &ends)?;
    Ok(Explored {
        outcomes,
        extent,
        endless,
        states: count,
    })
}
