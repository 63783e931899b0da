//! The walks along the entries that lead to what a search has found. Where those can't be walked, which is not promised, the answer
//! is want of memory; of where a walk comes to nothing is promised either, and whoever asked for it looks.
ghost use Rattle.std.specs.Prelude.{IfOk};
ghost use Rattle.number_states.specs.Stocks.{HasGrown};
ghost use Rattle.conc_outcomes.specs.walks.Entering.{IsAt};

use crate::walks::{Ticks, Walk};
use hs_base::NoMemory;
use hs_rules::Entry;
use number_states::Numbers;
use outcome_listing::Bounds;
use rules_code::CodeBody;
use state_search::{Move, Origin};
use std::alloc::Global;

/// A code, and the bounds within which it is looked at.
#[derive(Clone, Copy)]
pub struct Bounded<'a> {
    pub body: &'a CodeBody,
    pub bounds: &'a Bounds,
}

/// How a search came to each state, and what it found to lead on from each.
#[derive(Clone, Copy)]
pub struct Paths<'a> {
    pub origins: &'a [Origin],
    pub moves: &'a [Move],
}

/// The most steps of a Local.
const MOST_STEPS: u32 = 1_024;

/// The Local that two make, one behind the other, where they are of one thread.
fn joined(last: Option<Entry>, entry: Entry) -> Option<Entry> {
    match (last, entry) {
        (Some(Entry::Local { t, k }), Entry::Local { t: thread, k: 1 })
            if t == thread && k < MOST_STEPS => { Some(Entry::Local { t, k: k + 1 }) }
        _ => None,
    }
}

/// Puts an entry at the end of a list, or joins it to the last one, so that a history is no longer than it has to be.
fn push_entry(entries: &mut Vec<Entry>, entry: Entry) -> Result<(), NoMemory> {
    let last = entries.last().copied();
    let pushed = match joined(last, entry) {
        None => entry,
        Some(both) => {
            entries.pop();
            both
        }
    };
    entries.reserve(1)?;
    entries.push_reserved(pushed);
    Ok(())
}

/// Puts the entry of an origin, and the eager rules behind it, at the end of a list.
fn push_origin(entries: &mut Vec<Entry>, origin: &Origin) -> Result<(), NoMemory> {
    if let Some(entry) = origin.entry {
        push_entry(entries, entry)?;
    }
    for entry in origin.rest.iter() {
        push_entry(entries, *entry)?;
    }
    Ok(())
}

/// The numbers of the states on the way to one, itself among them, the last first.
fn states_to(alloc: Global, origins: &[Origin], state: u32) -> Result<Vec<u32>, NoMemory> {
    let mut states = Vec::new(alloc);
    let mut at = state;
    'back: for _ in 0..origins.len() {
        states.reserve(1)?;
        states.push_reserved(at);
        match origins.get(at as usize) {
            Some(origin) if origin.entry.is_some() => at = origin.parent,
            _ => break,
        }
    }
    Ok(states)
}

/// The entries on the way to the state of a number.
fn path_to(alloc: Global, origins: &[Origin], state: u32) -> Result<Vec<Entry>, NoMemory> {
    let states = states_to(alloc, origins, state)?;
    let mut entries = Vec::new(alloc);
    for at in states.iter().rev() {
        if let Some(origin) = origins.get(*at as usize) {
            push_origin(&mut entries, origin)?;
        }
    }
    Ok(entries)
}

/// Those on the way to what was met by an origin.
fn path_by(alloc: Global, origins: &[Origin], by: &Origin) -> Result<Vec<Entry>, NoMemory> {
    let mut entries = match by.entry {
        None => Vec::new(alloc),
        Some(_) => path_to(alloc, origins, by.parent)?,
    };
    push_origin(&mut entries, by)?;
    Ok(entries)
}

/// The walk along these entries.
fn walked(
    alloc: Global,
    body: &CodeBody,
    bounds: &Bounds,
    numbers: &mut Numbers,
    ticks: Ticks,
    entries: &[Entry],
) -> Result<Walk, NoMemory>
    ensures at { IfOk result (λ w. IsAt bounds.now body.now numbers.new w) }
    ensures grows { HasGrown numbers.old numbers.new }
{
    let mut walk = Walk::begin(alloc, body, numbers)?;
    walk.take_all(alloc, body, bounds, numbers, ticks, entries)?;
    Ok(walk)
}

/// The walk to the state of a number.
pub fn walk_to(
    alloc: Global,
    body: &CodeBody,
    bounds: &Bounds,
    numbers: &mut Numbers,
    origins: &[Origin],
    state: u32,
) -> Result<Walk, NoMemory>
    ensures at { IfOk result (λ w. IsAt bounds.now body.now numbers.new w) }
    ensures grows { HasGrown numbers.old numbers.new }
{
    let entries = path_to(alloc, origins, state)?;
    walked(
        alloc,
        body,
        bounds,
        numbers,
        Ticks::Needed,
        entries.as_slice(),
    )
}

/// The walk to what was met by an origin, its last entry taken, with so many Ticks.
pub fn walk_by(
    alloc: Global,
    body: &CodeBody,
    bounds: &Bounds,
    numbers: &mut Numbers,
    origins: &[Origin],
    ticks: Ticks,
    by: &Origin,
) -> Result<Walk, NoMemory>
    ensures at { IfOk result (λ w. IsAt bounds.now body.now numbers.new w) }
    ensures grows { HasGrown numbers.old numbers.new }
{
    let entries = path_by(alloc, origins, by)?;
    walked(alloc, body, bounds, numbers, ticks, entries.as_slice())
}
