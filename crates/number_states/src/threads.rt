//! Changes of one thread of a state. Where memory runs out nothing is said of the state: whoever changes a copy drops it.
ghost use Rattle.std.specs.Prelude.{◌≡◌, ◌<◌, OnOk, length};
ghost use Rattle.rules_meaning.specs.Values.{value_of};
ghost use Rattle.rules_code.specs.declared.code.CodeBody.{CodeBody};
ghost use Rattle.slot_laws.specs.SlotRules.{ret};
ghost use Rattle.slot_states.specs.SlotStates.{SlotState, answer, blocked_at, finished_at, moves, spawned};
ghost use Rattle.local_steps.specs.Machine.{active_of};
ghost use Rattle.number_states.specs.Stocks.{HasGrown, term_at, IsTerm};
ghost use Rattle.number_states.specs.States.{AreIn, Becomes, resumes};

use crate::numbers::Numbers;
use crate::state::{NumberState, NumberThread};
use hs_base::{NoMemory, Value};
use local_steps::Active;
use std::alloc::Global;

impl NumberState {
    /// A thread goes on with this part in its frames, and is blocked no more. Where there is no such thread nothing changes.
    pub fn resume(
        &mut self,
        alloc: Global,
        numbers: &mut Numbers,
        thread: u32,
        part: Active,
    ) -> Result<(), NoMemory>
        requires { AreIn numbers.old self.old }
        ensures is { OnOk result (Becomes (λ b. resumes thread (active_of b part)) numbers.old self.old numbers.new self.new) }
        ensures grows { HasGrown numbers.old numbers.new }
    {
        let Some(one) = self.threads.get_mut(thread as usize) else {
            return Ok(());
        };
        let term = numbers.resumed(alloc, one.term, part)?;
        one.term = term;
        one.blocked = false;
        Ok(())
    }

    /// A thread is answered this value.
    pub fn answer(
        &mut self,
        alloc: Global,
        numbers: &mut Numbers,
        thread: u32,
        value: Value,
    ) -> Result<(), NoMemory>
        requires { AreIn numbers.old self.old }
        ensures is { OnOk result (Becomes (λ b. answer thread (value_of value)) numbers.old self.old numbers.new self.new) }
        ensures grows { HasGrown numbers.old numbers.new }
    {
        self.resume(alloc, numbers, thread, Active::Ret(value))
    }

    /// A thread is blocked.
    pub fn block(&mut self, numbers: &Numbers, thread: u32)
        requires { AreIn numbers.now self.old }
        ensures { Becomes (λ b x. record x { threads = blocked_at thread x.threads }) numbers.now self.old numbers.now self.new }
    {
        let _ = numbers;
        if let Some(one) = self.threads.get_mut(thread as usize) {
            one.blocked = true;
        }
    }

    /// A thread has finished.
    pub fn finish(&mut self, numbers: &Numbers, thread: u32)
        requires { AreIn numbers.now self.old }
        ensures { Becomes (λ b x. record x { threads = finished_at thread x.threads }) numbers.now self.old numbers.now self.new }
    {
        let _ = numbers;
        if let Some(one) = self.threads.get_mut(thread as usize) {
            one.finished = true;
        }
    }

    /// A thread has the term of this number.
    pub fn move_to(&mut self, numbers: &Numbers, thread: u32, term: u32)
        requires state { AreIn numbers.now self.old }
        requires term { IsTerm numbers.now term }
        ensures { Becomes (λ b. moves thread (term_at numbers.now b term)) numbers.now self.old numbers.now self.new }
    {
        let _ = numbers;
        if let Some(one) = self.threads.get_mut(thread as usize) {
            one.term = term;
        }
    }

    /// A new thread, the last by number, has the term of this number.
    pub fn spawn(&mut self, numbers: &Numbers, term: u32) -> Result<(), NoMemory>
        requires state { AreIn numbers.now self.old }
        requires term { IsTerm numbers.now term }
        ensures { OnOk result (Becomes (λ b x. record x { threads = spawned (term_at numbers.now b term) x.threads }) numbers.now self.old numbers.now self.new) }
    {
        let _ = numbers;
        let thread = NumberThread {
            term,
            blocked: false,
            finished: false,
        };
        self.threads.reserve(1)?;
        self.threads.push_reserved(thread);
        Ok(())
    }
}
