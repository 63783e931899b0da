//! A run that comes back to a state.
ghost use Rattle.std.specs.Prelude.{◌≡◌, IfOk, OnOk, drop};
ghost use Rattle.hs_base.specs.declared.tree.script.Script.{Script};
ghost use Rattle.rules_expansion.specs.trees.Programs.{script_of};
ghost use Rattle.number_tables.specs.Tables.{Grows};
ghost use Rattle.number_states.specs.Stocks.{HasGrown};
ghost use Rattle.state_search.specs.Searching.{IsCodeOf};
ghost use Rattle.conc_outcomes.specs.walks.Walking.{ComesBack};
ghost use Rattle.conc_outcomes.specs.walks.Entering.{IsAt};
ghost use Rattle.conc_outcomes.specs.Parts.{IsEndOf};

use crate::finiteness::Ends;
use crate::paths::{Bounded, Paths, walk_to};
use crate::walks::{Ticks, Walk, are_alike, works};
use hs_base::NoMemory;
use hs_rules::History;
use number_states::Numbers;
use outcome_listing::Endless;
use state_search::{Gap, Move};
use std::alloc::Global;

/// The entries of a history from a place on.
fn entries_from(alloc: Global, history: &History, place: usize) -> Result<History, NoMemory>
    ensures { IfOk result (λ h. h.list ≡ drop place history.now.list) }
{
    let mut entries = History::new(alloc);
    for at in place..history.len() {
        if let Some(entry) = history.at(at) {
            entries.push(entry)?;
        }
    }
    Ok(entries)
}

/// Takes the moves at these places, one after another, and the eager rules behind each.
fn go_round(
    alloc: Global,
    code: Bounded,
    numbers: &mut Numbers,
    moves: &[Move],
    places: &[usize],
    walk: &mut Walk,
) -> Result<(), NoMemory>
    requires { IsAt code.bounds.now code.body.now numbers.old walk.old }
    ensures at { OnOk result (IsAt code.entry.bounds.now code.entry.body.now numbers.new walk.new) }
    ensures history { OnOk result (Grows walk.old.history.list walk.new.history.list) }
    ensures grows { HasGrown numbers.old numbers.new }
{
    for place in places {
        if let Some(one) = moves.get(*place) {
            walk.take(
                alloc,
                code.body,
                code.bounds,
                numbers,
                Ticks::Needed,
                one.entry,
            )?;
            walk.settle(alloc, code.body, code.bounds, numbers)?;
        }
    }
    Ok(())
}

/// A run to the state of a number, and the entries of the moves at these places, which lead back to it. That they can be walked is
/// not promised: where they can't, the answer is want of memory.
fn round(
    alloc: Global,
    code: Bounded,
    numbers: &mut Numbers,
    paths: Paths,
    at: u32,
    places: &[usize],
) -> Result<(History, History), NoMemory>
    ensures { IfOk result (λ r. (script : Script) → IsCodeOf code.entry.body.now script → ComesBack code.entry.bounds.now.clock (script_of script) r.0.list r.1.list) }
{
    let mut walk = walk_to(alloc, code.body, code.bounds, numbers, paths.origins, at)?;
    let to = entries_from(alloc, &walk.history, 0)?;
    let begin = walk.state.copy(alloc)?;
    go_round(alloc, code, numbers, paths.moves, places, &mut walk)?;
    let round = entries_from(alloc, &walk.history, to.len())?;
    if !works(&round) {
        return Err(NoMemory);
    }
    if !are_alike(alloc, code.bounds.clock, numbers, &begin, &walk.state)? {
        return Err(NoMemory);
    }
    Ok((to, round))
}

/// Whether every schedule ends, by the ends of the moves of a search that has this gap.
pub fn endless(
    alloc: Global,
    code: Bounded,
    numbers: &mut Numbers,
    paths: Paths,
    gap: &Option<Gap>,
    ends: &Ends,
) -> Result<Endless, NoMemory>
    ensures { IfOk result (λ e. (script : Script) → IsCodeOf code.entry.body.now script → IsEndOf code.entry.bounds.now.clock (script_of script) gap.now ends.now e) }
{
    match ends {
        Ends::Never if gap.is_none() => Ok(Endless::Never),
        Ends::Never => Ok(Endless::Unknown),
        Ends::Round { at, moves: places } => {
            let (to, round) = round(alloc, code, numbers, paths, *at, places)?;
            Ok(Endless::Round { to, round })
        }
    }
}
