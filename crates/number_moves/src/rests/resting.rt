ghost use Rattle.std.specs.Prelude.{◌≡◌, ◌≤◌, IfOk, OnOk, MatchBool};
ghost use Rattle.local_steps.specs.Machine.{funs_of};
ghost use Rattle.number_states.specs.Stocks.{HasGrown};
ghost use Rattle.number_states.specs.States.{AreIn, slots};
ghost use Rattle.number_moves.specs.rests.Resting.{Rests, IsFree, MovesOn, most_rules};
ghost use Rattle.number_moves.specs.rests.Rules.{AreRules};

use crate::rests::rules::EagerRules;
use hs_base::NoMemory;
use hs_rules::{Entry, LimitKind};
use number_states::{NumberState, Numbers, used};
use rules_code::CodeBody;
use std::alloc::Global;

/// How many eager local rules are taken at once at most.
const MOST_RULES: u32 = 1_024;

/// Whether the main thread hasn't finished, and this one is there, hasn't finished, and isn't blocked.
fn is_free(state: &NumberState, thread: u32) -> bool
    ensures { MatchBool result (IsFree state.now thread) (IsFree state.now thread → ⊥) }
{
    let goes = match state.threads.get(0) {
        None => false,
        Some(main) => !main.finished,
    };
    match state.threads.get(thread as usize) {
        None => false,
        Some(one) => goes && !one.finished && !one.blocked,
    }
}

/// Takes one eager local rule of the thread, where there is one that leaves no more frames than may be, and answers whether it
/// did. Where memory runs out nothing is said of the state.
fn move_on(
    alloc: Global,
    body: &CodeBody,
    numbers: &mut Numbers,
    rules: &mut EagerRules,
    state: &mut NumberState,
    most_frames: u32,
    thread: u32,
) -> Result<bool, NoMemory>
    requires state { AreIn numbers.old state.old }
    requires rules { AreRules body.now numbers.old rules.old }
    ensures moves { IfOk result (λ done. MovesOn (funs_of body.now) most_frames thread (slots numbers.old body.now state.old) (slots numbers.new body.now state.new) done) }
    ensures output { OnOk result (state.new.output ≡ state.old.output) }
    ensures errors { OnOk result (state.new.errors ≡ state.old.errors) }
    ensures there { OnOk result (AreIn numbers.new state.new) }
    ensures grows { HasGrown numbers.old numbers.new }
    ensures rules { OnOk result (AreRules body.now numbers.new rules.new) }
{
    if !is_free(state, thread) {
        return Ok(false);
    }
    let term = state.threads[thread as usize].term;
    let Some(to) = rules.eager(alloc, body, numbers, term)? else {
        return Ok(false);
    };
    state.move_to(numbers, thread, to);
    if used(LimitKind::Frames, numbers, state)? > most_frames as u64 {
        state.move_to(numbers, thread, term);
        return Ok(false);
    }
    Ok(true)
}

/// Takes eager local rules of each thread that goes, one after another, and answers how many; their entries are put at the end
/// of the list. Where memory runs out nothing is said of the state, and the list may have some of them.
pub fn rest(
    alloc: Global,
    body: &CodeBody,
    numbers: &mut Numbers,
    rules: &mut EagerRules,
    state: &mut NumberState,
    most_frames: u32,
    locals: &mut Vec<Entry>,
) -> Result<u32, NoMemory>
    requires state { AreIn numbers.old state.old }
    requires rules { AreRules body.now numbers.old rules.old }
    ensures rests { IfOk result (λ k. Rests (funs_of body.now) most_frames k locals.old.items locals.new.items (slots numbers.old body.now state.old) (slots numbers.new body.now state.new)) }
    ensures few { IfOk result (λ k. k ≤ most_rules) }
    ensures output { OnOk result (state.new.output ≡ state.old.output) }
    ensures errors { OnOk result (state.new.errors ≡ state.old.errors) }
    ensures there { OnOk result (AreIn numbers.new state.new) }
    ensures grows { HasGrown numbers.old numbers.new }
    ensures rules { OnOk result (AreRules body.now numbers.new rules.new) }
{
    let threads = u32::try_from(state.threads.len()).map_err(|_| NoMemory)?;
    let mut count = 0;
    let mut thread = 0;
    'moves: while count < MOST_RULES && thread < threads {
        if move_on(alloc, body, numbers, rules, state, most_frames, thread)? {
            locals.reserve(1)?;
            locals.push_reserved(Entry::Local { t: thread, k: 1 });
            count += 1;
        } else {
            thread += 1;
        }
    }
    Ok(count)
}
