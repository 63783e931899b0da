//! What a state shows at a glance: how main has ended, whether an entry reads the clock, which limit is exceeded.
ghost use Rattle.std.specs.Prelude.{◌≡◌, IfOk, MatchBool, MatchOption, slice_get};
ghost use Rattle.rules_code.specs.declared.code.CodeBody.{CodeBody};
ghost use Rattle.local_steps.specs.Machine.{active_of};
ghost use Rattle.search_laws.specs.time.WithoutTime.{ReadsClock, part_reads_clock};
ghost use Rattle.number_states.specs.States.{AreIn, slots};
ghost use Rattle.search_laws.specs.Shown.{FitsIn};
ghost use Rattle.search_laws.specs.Going.{ReadsTime};
ghost use Rattle.search_laws.specs.Found.{is_value as is_value_by, ended_by};
ghost use Rattle.state_search.specs.Meaning.{kind_of};
ghost use Rattle.state_search.specs.Searching.{ExceedsFirst};

use hs_base::{ClockChoice, Limits, NoMemory};
use hs_rules::{Entry, LimitKind};
use local_steps::Active;
use number_states::{NumberState, Numbers, used};
use outcome_listing::Final;
use rules_code::Primitive;

/// Whether a part is a value.
fn is_value(part: &Active) -> bool
    ensures { (b : CodeBody) → result ≡ is_value_by (active_of b part.now) }
{
    matches!(part, Active::Ret(_))
}

/// Whether a part stands at `clockMicros`.
fn part_reads(part: &Active) -> bool
    ensures { (b : CodeBody) → result ≡ part_reads_clock (active_of b part.now) }
{
    match part {
        Active::Asks(primitive, _) => matches!(primitive, Primitive::ClockMicros),
        _ => false,
    }
}

/// How main has ended, where it has finished.
pub fn ended(numbers: &Numbers, state: &NumberState) -> Option<Final>
    requires { AreIn numbers.now state.now }
    ensures { (b : CodeBody) → kind_of result ≡ ended_by (slice_get (slots numbers.now b state.now).threads 0) }
{
    let Some(main) = state.threads.get(0) else {
        return None;
    };
    if !main.finished {
        return None;
    }
    if is_value(numbers.part(main.term)) {
        Some(Final::Done)
    } else {
        Some(Final::Uncaught)
    }
}

/// Whether an entry reads the clock.
fn reads_clock(numbers: &Numbers, state: &NumberState, entry: Entry) -> bool
    requires { AreIn numbers.now state.now }
    ensures { (b : CodeBody) → MatchBool result (ReadsClock (slots numbers.now b state.now) entry) (ReadsClock (slots numbers.now b state.now) entry → ⊥) }
{
    let Entry::Op { t } = entry else {
        return false;
    };
    match state.threads.get(t as usize) {
        None => false,
        Some(thread) => part_reads(numbers.part(thread.term)),
    }
}

/// Whether an entry reads the clock, and the clock is the real one.
pub fn reads_time(numbers: &Numbers, state: &NumberState, entry: Entry, clock: ClockChoice) -> bool
    requires { AreIn numbers.now state.now }
    ensures { (b : CodeBody) → MatchBool result (ReadsTime clock (slots numbers.now b state.now) entry) (ReadsTime clock (slots numbers.now b state.now) entry → ⊥) }
{
    match clock {
        ClockChoice::Real => reads_clock(numbers, state, entry),
        ClockChoice::Virtual => false,
    }
}

/// The first limit that a state exceeds, if there is one.
pub fn exceeded(
    numbers: &Numbers,
    state: &NumberState,
    limits: &Limits,
) -> Result<Option<LimitKind>, NoMemory>
    requires { AreIn numbers.now state.now }
    ensures { IfOk result (λ found. (b : CodeBody) → MatchOption found (FitsIn limits.now (slots numbers.now b state.now)) (λ kind. ExceedsFirst kind limits.now (slots numbers.now b state.now))) }
{
    if used(LimitKind::Threads, numbers, state)? > limits.threads as u64 {
        return Ok(Some(LimitKind::Threads));
    }
    if used(LimitKind::Cells, numbers, state)? > limits.cells as u64 {
        return Ok(Some(LimitKind::Cells));
    }
    if used(LimitKind::Frames, numbers, state)? > limits.frames as u64 {
        return Ok(Some(LimitKind::Frames));
    }
    if used(LimitKind::Output, numbers, state)? > limits.output as u64 {
        return Ok(Some(LimitKind::Output));
    }
    Ok(None)
}
