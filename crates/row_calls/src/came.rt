//! One call of the top call, and what it left.

ghost use Rattle.std.specs.Prelude.{◌≡◌, IfOk, Ok};

use conc_top::{Done, Ending, RunEnd, run};
use hs_base::NoMemory;
use hs_io::{
    Clock, MemSink, MemSource, OpenGate, PlainSource, Source, StandingClock, VirtualClock,
};
use hs_rules::{Entry, History};
use row_answers::{Answer, ClockPlan, Flaw, Plan};
use std::alloc::Global;
use std::sync::Wait;
use std::thread::Threads;

/// What a call left.
#[derive(Drop)]
pub struct Came {
    pub answer: Answer,
    pub history: History,
    /// The entry that would exceed a limit.
    pub limit_at: Option<Entry>,
}

/// Calls the top call as a row says, with these words, on this input.
pub fn call<R: Threads + Wait + Sync>(
    alloc: Global,
    rt: &R,
    plan: &Plan,
    words: &[String],
    input: &[u8],
) -> Result<Came, Flaw> {
    match &plan.source {
        None => {
            let mut source = held(PlainSource::of(alloc, input))?;
            call_with(alloc, rt, plan, words, &mut source)
        }
        Some(pieces) => {
            let piece = pieces.piece.max(1);
            let mut source = held(MemSource::of(alloc, input, piece, &pieces.fails))?;
            call_with(alloc, rt, plan, words, &mut source)
        }
    }
}

/// What such a call tells, and its status.
pub fn answer_to<R: Threads + Wait + Sync>(
    alloc: Global,
    rt: &R,
    plan: &Plan,
    words: &[String],
    input: &[u8],
) -> Result<Answer, Flaw> {
    let Came {
        answer,
        history: _,
        limit_at: _,
    } = call(alloc, rt, plan, words, input)?;
    Ok(answer)
}

fn call_with<S: Source, R: Threads + Wait + Sync>(
    alloc: Global,
    rt: &R,
    plan: &Plan,
    words: &[String],
    source: &mut S,
) -> Result<Came, Flaw> {
    match plan.clock {
        ClockPlan::Virtual => call_at(alloc, rt, plan, words, source, VirtualClock::new()),
        ClockPlan::Standing => call_at(alloc, rt, plan, words, source, StandingClock::new()),
    }
}

fn call_at<S: Source, K: Clock + Drop + Send, R: Threads + Wait + Sync>(
    alloc: Global,
    rt: &R,
    plan: &Plan,
    words: &[String],
    source: &mut S,
    clock: K,
) -> Result<Came, Flaw> {
    let out = held(MemSink::of(alloc, plan.out.room, &plan.out.fails))?;
    let err = held(MemSink::of(alloc, plan.err.room, &plan.err.fails))?;
    let Done {
        status,
        ending,
        history,
        out,
        err,
        clock: _,
    } = run(alloc, rt, words, source, out, err, clock, &OpenGate);
    Ok(Came {
        answer: Answer {
            out: out.told().to_vec(alloc)?,
            err: err.told().to_vec(alloc)?,
            status,
            accepted: is_accepted(&ending),
        },
        history,
        limit_at: limit_at(&ending),
    })
}

// What was made, where there was memory for it.
fn held<T: Drop>(made: Result<T, NoMemory>) -> Result<T, Flaw>
    ensures { IfOk result (λ value. made ≡ Ok value) }
{
    match made {
        Ok(value) => Ok(value),
        Err(NoMemory) => Err(Flaw::NoMemory),
    }
}

// Whether the ending says that the rules accept the script.
fn is_accepted(ending: &Ending) -> bool {
    match ending {
        Ending::Ran(RunEnd::Memory | RunEnd::Write) => false,
        Ending::Ran(_) | Ending::Accepted => true,
        _ => false,
    }
}

fn limit_at(ending: &Ending) -> Option<Entry> {
    match ending {
        Ending::Ran(RunEnd::Limit(_, entry)) => Some(*entry),
        _ => None,
    }
}
