//! Operations that no cell and no other thread answers.
ghost use Rattle.std.specs.Prelude.{◌≡◌, ◌++◌, ◌∷◌, [], suc, pos, min, IfOk, OnOk};
ghost use Rattle.hs_base.specs.declared.mask.Mask.TheVariants.{Unmasked};
ghost use Rattle.hs_base.specs.declared.exn.Exn.TheVariants.{Timeout};
ghost use Rattle.rules_meaning.specs.Values.{values_of, Int, Text, Exception, Inst, Restore};
ghost use Rattle.hs_rules.specs.Primitives.{masking_text};
ghost use Rattle.slot_laws.specs.SlotRules.{at, mask_in, mask_from};
ghost use Rattle.slot_states.specs.SlotStates.{answer, forks_to};
ghost use Rattle.slot_states.specs.entering.Operating.{delayed};
ghost use Rattle.local_steps.specs.Machine.{active_of};
ghost use Rattle.number_states.specs.Stocks.{HasGrown, IsTerm, term_at};
ghost use Rattle.number_states.specs.States.{AreIn, Becomes};
ghost use Rattle.number_changes.specs.Moves.{child_term};

use hs_base::{Exn, Mask, NoMemory, Txt, Value};
use local_steps::Active;
use local_steps::environments::Env;
use number_states::waits::Asleep;
use number_states::{NumberState, Numbers};
use rules_code::ActId;
use std::alloc::Global;

/// What `getMaskingState` answers.
fn masking(alloc: Global, mask: Mask) -> Result<Txt, NoMemory>
    ensures { IfOk result (λ t. t ≡ masking_text mask) }
{
    let text = match mask {
        Mask::Unmasked => "Unmasked",
        Mask::Masked => "MaskedInterruptible",
        Mask::Uninterruptible => "MaskedUninterruptible",
    };
    Txt::of(alloc, text)
}

/// A thread with the term of this number is answered the name of its masking state.
pub fn tell_masking(
    alloc: Global,
    numbers: &mut Numbers,
    state: &mut NumberState,
    thread: u32,
    term: u32,
) -> Result<(), NoMemory>
    requires state { AreIn numbers.old state.old }
    requires term { IsTerm numbers.old term }
    ensures is { OnOk result (Becomes (λ b. answer thread (Text (masking_text (mask_from Unmasked (term_at numbers.old b term).frames)))) numbers.old state.old numbers.new state.new) }
    ensures grows { HasGrown numbers.old numbers.new }
{
    let text = masking(alloc, numbers.mask(term))?;
    state.answer(alloc, numbers, thread, Value::Text(text))
}

/// A thread is answered the clock, or the largest integer where the clock is beyond it.
pub fn tell_clock(
    alloc: Global,
    numbers: &mut Numbers,
    state: &mut NumberState,
    thread: u32,
) -> Result<(), NoMemory>
    requires { AreIn numbers.old state.old }
    ensures is { OnOk result (Becomes (λ b x. answer thread (Int (pos (min x.clock 9223372036854775807))) x) numbers.old state.old numbers.new state.new) }
    ensures grows { HasGrown numbers.old numbers.new }
{
    let now = state.clock.min(i64::MAX as u64);
    state.answer(alloc, numbers, thread, Value::Int(now as i64))
}

/// A thread is answered the exception of the next timeout.
pub fn new_timeout(
    alloc: Global,
    numbers: &mut Numbers,
    state: &mut NumberState,
    thread: u32,
) -> Result<(), NoMemory>
    requires { AreIn numbers.old state.old }
    ensures is { OnOk result (Becomes (λ b x. record (answer thread (Exception (Timeout x.next_timeout)) x) { next_timeout = suc x.next_timeout }) numbers.old state.old numbers.new state.new) }
    ensures grows { HasGrown numbers.old numbers.new }
{
    let number = state.timeouts;
    state.timeouts = number.checked_add(1).ok_or(NoMemory)?;
    state.answer(alloc, numbers, thread, Value::Exn(Exn::Timeout(number)))
}

/// A thread is answered the number of the next use of `bracket`.
pub fn acquire(
    alloc: Global,
    numbers: &mut Numbers,
    state: &mut NumberState,
    thread: u32,
) -> Result<(), NoMemory>
    requires { AreIn numbers.old state.old }
    ensures is { OnOk result (Becomes (λ b x. record (answer thread (Inst x.next_instance) x) { next_instance = suc x.next_instance }) numbers.old state.old numbers.new state.new) }
    ensures grows { HasGrown numbers.old numbers.new }
{
    let number = state.instances;
    state.instances = number.checked_add(1).ok_or(NoMemory)?;
    state.answer(alloc, numbers, thread, Value::Inst(number))
}

/// A thread sleeps for so many microseconds, or, where there are none, is answered at once.
pub fn delay(
    alloc: Global,
    numbers: &mut Numbers,
    state: &mut NumberState,
    thread: u32,
    micros: i64,
) -> Result<(), NoMemory>
    requires { AreIn numbers.old state.old }
    ensures is { OnOk result (Becomes (λ b. delayed thread micros) numbers.old state.old numbers.new state.new) }
    ensures grows { HasGrown numbers.old numbers.new }
{
    if micros <= 0 {
        return state.answer(alloc, numbers, thread, Value::Unit);
    }
    let due = state.clock.saturating_add(micros as u64);
    number_states::waits::add(&mut state.sleepers, Asleep { thread, due })?;
    state.block(numbers, thread);
    Ok(())
}

/// A thread with the term of this number forks one that is to do this part.
fn begin(
    alloc: Global,
    numbers: &mut Numbers,
    state: &mut NumberState,
    thread: u32,
    term: u32,
    part: Active,
) -> Result<(), NoMemory>
    requires state { AreIn numbers.old state.old }
    requires term { IsTerm numbers.old term }
    ensures is { OnOk result (Becomes (λ b. forks_to thread (at (active_of b part) (mask_in (mask_from Unmasked (term_at numbers.old b term).frames) ∷ []))) numbers.old state.old numbers.new state.new) }
    ensures grows { HasGrown numbers.old numbers.new }
{
    let Ok(child) = u32::try_from(state.threads.len()) else {
        return Err(NoMemory);
    };
    let begun = numbers.forked(alloc, term, part)?;
    state.answer(alloc, numbers, thread, Value::Thread(child))?;
    state.spawn(numbers, begun)
}

/// What a forked thread is to do: an action, and the values of its slots.
#[derive(Drop)]
pub struct Child {
    pub action: ActId,
    pub env: Env,
}

/// A thread with the term of this number forks one that is to do this.
pub fn fork(
    alloc: Global,
    numbers: &mut Numbers,
    state: &mut NumberState,
    thread: u32,
    term: u32,
    child: Child,
) -> Result<(), NoMemory>
    requires state { AreIn numbers.old state.old }
    requires term { IsTerm numbers.old term }
    ensures is { OnOk result (Becomes (λ b. forks_to thread (child_term numbers.old term b child.action (values_of child.env))) numbers.old state.old numbers.new state.new) }
    ensures grows { HasGrown numbers.old numbers.new }
{
    let Child { action, env } = child;
    begin(
        alloc,
        numbers,
        state,
        thread,
        term,
        Active::Doing(action, env),
    )
}

/// The same, with the unmasked state in the action's next slot.
pub fn fork_unmask(
    alloc: Global,
    numbers: &mut Numbers,
    state: &mut NumberState,
    thread: u32,
    term: u32,
    child: Child,
) -> Result<(), NoMemory>
    requires state { AreIn numbers.old state.old }
    requires term { IsTerm numbers.old term }
    ensures is { OnOk result (Becomes (λ b. forks_to thread (child_term numbers.old term b child.action (values_of child.env ++ Restore Unmasked ∷ []))) numbers.old state.old numbers.new state.new) }
    ensures grows { HasGrown numbers.old numbers.new }
{
    let Child { action, mut env } = child;
    env.push(alloc, Value::Restore(Mask::Unmasked))?;
    begin(
        alloc,
        numbers,
        state,
        thread,
        term,
        Active::Doing(action, env),
    )
}
