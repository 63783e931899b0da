//! The entries to try in a state.
ghost use Rattle.std.specs.Prelude.{◌≡◌, ◌++◌, ◌∷◌, [], map, IfOk, OnOk};
ghost use Rattle.hs_rules.specs.declared.entry.Entry.TheVariants as entry;
ghost use Rattle.number_states.specs.waits.Sleeping as sleeping;
ghost use Rattle.rules_code.specs.declared.code.CodeBody.{CodeBody};
ghost use Rattle.number_states.specs.Stocks.{Stock};
ghost use Rattle.number_states.specs.States.{thread_of, slots};
ghost use Rattle.search_laws.specs.Found as found;
ghost use Rattle.search_laws.specs.Found.{entries_at, entries_from, wake_of};

use hs_base::NoMemory;
use hs_rules::Entry;
use number_states::waits::Asleep;
use number_states::{NumberState, NumberThread};
use std::alloc::Global;

/// Puts the entries that a thread has of its own, and that may have a next state, at the end of a list.
fn push_own(out: &mut Vec<Entry>, t: u32, thread: NumberThread) -> Result<(), NoMemory>
    ensures { OnOk result ((g : Stock) (b : CodeBody) → out.new.items ≡ out.old.items ++ entries_at t (thread_of g b thread)) }
{
    if thread.finished {
        return Ok(());
    }
    out.reserve(4)?;
    if thread.blocked {
        out.push_reserved(Entry::Receive { t });
        return Ok(());
    }
    out.push_reserved(Entry::Local { t, k: 1 });
    out.push_reserved(Entry::Op { t });
    out.push_reserved(Entry::Receive { t });
    out.push_reserved(Entry::Finish { t });
    Ok(())
}

/// Those of these threads, the Wake of each sleeper, and a Stranded.
fn candidates(
    alloc: Global,
    threads: &[NumberThread],
    sleepers: &[Asleep],
) -> Result<Vec<Entry>, NoMemory>
    ensures { IfOk result (λ es. (g : Stock) (b : CodeBody) → es.items ≡ (entries_from 0 (map (thread_of g b) threads.now) ++ map wake_of (sleeping.sleepers sleepers.now)) ++ entry.Stranded ∷ []) }
{
    let mut out = Vec::new(alloc);
    let Ok(count) = u32::try_from(threads.len()) else {
        return Err(NoMemory);
    };
    for t in 0..count {
        push_own(&mut out, t, threads[t as usize])?;
    }
    for sleeper in sleepers {
        out.reserve(1)?;
        out.push_reserved(Entry::Wake { t: sleeper.thread });
    }
    out.reserve(1)?;
    out.push_reserved(Entry::Stranded);
    Ok(out)
}

/// The entries to try in a state: none where the main thread has finished.
pub fn entries_to_try(alloc: Global, state: &NumberState) -> Result<Vec<Entry>, NoMemory>
    ensures { IfOk result (λ es. (g : Stock) (b : CodeBody) → es.items ≡ found.candidates (slots g b state.now)) }
{
    let Some(main) = state.threads.get(0) else {
        return Ok(Vec::new(alloc));
    };
    if main.finished {
        return Ok(Vec::new(alloc));
    }
    candidates(alloc, state.threads.as_slice(), state.sleepers.as_slice())
}
