//! The calls on deques.
ghost use Rattle.std.specs.Prelude.{◌≡◌, ◌+◌, ◌-◌, ◌<◌, ◌≤◌, ◌↔◌, ◌∷◌, ◌++◌, [], Some, IfOk, OnOk, IfErr, IsNone, MatchOption};
ghost use Rattle.std.specs.Int.{IsNextPowerOfTwo};
ghost use Rattle.crossbeam_deque.specs.Handles.{worker_view, worker_deque, worker_flavor, worker_capacity, worker_index, stealer_deque, stealer_flavor};
ghost use Rattle.conc_hands.specs.queues.QueueRule.{view_with, untold, spent, both_of, MetEmpty, SameTickets};
ghost use Rattle.conc_hands.specs.queues.Deques.{deque_view, deque_id, room_of, door_id, pass_view, IsDequePass};

use crate::queues::deque::{Deque, DequePass, Door};
use crate::queues::deque_rule::{JobsRule, Put, Take};
use crate::queues::rule::{AddUp, CodeName, GiveOne, TellCode};
use crate::queues::view::QueueView;
use crossbeam_deque::{Steal, Worker};
use hs_base::NoMemory;
use hs_rules::Ticketed;
use rules_code::CodeBody;
use std::alloc::Global;
use std::marker::Brand;
use std::sync::Wait;

/// How many pushes a deque takes before it has to grow.
const ROOM: usize = 64;

// Tells the deque its code.
fn told<J: Ticketed + Drop, C: CodeName>(
    mut worker: Worker<J, Global, QueueView, JobsRule>,
    code: &CodeBody,
) -> Worker<J, Global, QueueView, JobsRule>
    requires fresh { (worker_view worker ≡ untold) × (worker_flavor worker ≡ 0) }
    requires code { Some code.now ≡ C.code }
    ensures same { (worker_deque result ≡ worker_deque worker) × (worker_flavor result ≡ 0) × (worker_index result ≡ worker_index worker) × (worker_capacity worker ≤ worker_capacity result) }
    ensures view { worker_view result ≡ view_with (Some code.now) 16 [] [] }
{
    let _ = code;
    let _spent = worker.another::<TellCode<C>>();
    worker
}

impl<J: Ticketed> Deque<J> {
    /// An empty deque of jobs of this code, and its door. It has all shares.
    pub fn new(alloc: Global, code: &CodeBody) -> Result<(Deque<J>, Door<J>), NoMemory>
    where
        J: Drop,
        ensures deque { IfOk result (λ d. deque_view d.0 ≡ view_with (Some code.now) 16 [] []) }
        ensures door { IfOk result (λ d. door_id d.1 ≡ deque_id d.0) }
        ensures room { IfOk result (λ d. IsNextPowerOfTwo 64 (room_of d.0)) }
    {
        let worker: Worker<J, Global, QueueView, JobsRule> = Worker::fifo_as(alloc, ROOM)?;
        let stealer = worker.stealer()?;
        let room = worker.capacity();
        let worker = told::<J, Brand>(worker, code);
        Ok((Deque { worker, room }, Door { stealer }))
    }

    /// How many pushes are sure to succeed.
    pub fn room(&self) -> usize
        ensures { result ≡ room_of self.now }
    {
        self.room
    }

    /// Adds a job at the back. At `room` 0 the job may come back.
    pub fn push(&mut self, job: J) -> Result<(), J>
        requires { Some (J.belongs job) ≡ (deque_view self.old).code }
        ensures same { (deque_id self.new ≡ deque_id self.old) × (room_of self.new ≡ room_of self.old - 1) }
        ensures ok { let v = deque_view self.old in OnOk result (deque_view self.new ≡ view_with v.code v.shares (v.put ++ J.number job ∷ []) v.taken) }
        ensures err { IfErr result (λ x. (x ≡ job) × (deque_view self.new ≡ deque_view self.old) × (room_of self.old ≡ 0)) }
    {
        let pushed = self.worker.push_as::<Put>(job);
        self.room = self.room.saturating_sub(1);
        pushed
    }

    /// Takes the first job. `None` only where the deque was empty at a step of the call.
    pub fn pop(&mut self) -> Option<J>
        ensures same { (deque_id self.new ≡ deque_id self.old) × (room_of self.new ≡ room_of self.old) }
        ensures job { let v = deque_view self.old in MatchOption result ((deque_view self.new ≡ v) × MetEmpty J.number J.belongs v) (λ x. (Some (J.belongs x) ≡ v.code) × (deque_view self.new ≡ view_with v.code v.shares v.put (v.taken ++ J.number x ∷ []))) }
        ensures alone { let v = deque_view self.old in v.shares ≡ 16 → IsNone result ↔ SameTickets v.put v.taken }
    {
        self.worker.pop_as::<Take>()
    }

    /// Gives one share to a pass.
    pub fn another(&mut self) -> DequePass<J>
        requires { 1 < (deque_view self.old).shares }
        ensures same { (deque_id self.new ≡ deque_id self.old) × (room_of self.new ≡ room_of self.old) }
        ensures views { let v = deque_view self.old in (deque_view self.new ≡ view_with v.code (v.shares - 1) v.put v.taken) × (pass_view result ≡ view_with v.code 1 [] []) }
        ensures pass { IsDequePass (deque_id self.old) result }
    {
        DequePass {
            pass: self.worker.another::<GiveOne>(),
        }
    }

    /// Takes in what a pass has and knows.
    pub fn absorb(&mut self, pass: DequePass<J>)
        requires { IsDequePass (deque_id self.old) pass }
        ensures same { (deque_id self.new ≡ deque_id self.old) × (room_of self.new ≡ room_of self.old) }
        ensures view { deque_view self.new ≡ both_of (deque_view self.old) (pass_view pass) }
    {
        let DequePass { pass } = pass;
        self.worker.absorb::<AddUp>(pass);
    }
}

impl<J: Ticketed> Door<J> {
    /// A pass with no share, which can take nothing.
    pub fn spent_pass(&self) -> DequePass<J>
        ensures { IsDequePass (door_id self.now) result × (pass_view result ≡ spent) }
    {
        DequePass {
            pass: self.stealer.pass(),
        }
    }

    /// Takes the first job. `None` only where the deque was empty at a step of the call.
    pub fn steal<R: Wait>(&self, rt: &R, pass: &mut DequePass<J>) -> Option<J>
        requires { IsDequePass (door_id self.now) pass.old × (0 < (pass_view pass.old).shares) }
        ensures pass { IsDequePass (door_id self.now) pass.new }
        ensures job { let v = pass_view pass.old in MatchOption result ((pass_view pass.new ≡ v) × MetEmpty J.number J.belongs v) (λ x. (Some (J.belongs x) ≡ v.code) × (pass_view pass.new ≡ view_with v.code v.shares v.put (v.taken ++ J.number x ∷ []))) }
    {
        for _ in rt.forever() {
            match self.stealer.steal_as::<Take>(&mut pass.pass) {
                Steal::Success(job) => return Some(job),
                Steal::Empty => return None,
                Steal::Retry => {}
            }
        }
        unreachable!()
    }
}
