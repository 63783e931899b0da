//! The calls on an inbox.
ghost use Rattle.std.specs.Prelude.{◌≡◌, ◌-◌, ◌<◌, ◌↔◌, ◌∷◌, ◌++◌, [], Some, IfOk, OnOk, IfErr, IsNone, MatchOption};
ghost use Rattle.conc_hands.specs.queues.QueueRule.{view_with, untold, spent, both_of, MetEmpty, SameTickets};
ghost use Rattle.conc_hands.specs.queues.Inboxes.{IsInboxPass, IsTakenOut, inbox_view};

use crate::queues::inbox::{Inbox, InboxPass};
use crate::queues::inbox_rule::{PutOne, TakeOne};
use crate::queues::rule::{AddUp, CodeName, GiveAll, GiveOne, TellCode};
use crossbeam_queue::RuledSegQueue;
use hs_base::NoMemory;
use hs_rules::Ticketed;
use rules_code::CodeBody;
use std::alloc::Global;
use std::marker::Brand;
use std::sync::Wait;

impl<S: Ticketed + Drop> Inbox<S> {
    /// An empty inbox for slices of this code, and a pass with all shares.
    pub fn new(alloc: Global, code: &CodeBody) -> Result<(Inbox<S>, InboxPass<S>), NoMemory>
        ensures { IfOk result (λ i. IsInboxPass i.0 i.1 × (inbox_view i.1 ≡ view_with (Some code.now) 16 [] [])) }
    {
        let (queue, pass) = RuledSegQueue::with_rule(alloc)?;
        let inbox = Inbox { queue };
        let mut pass = InboxPass { pass };
        inbox.tell::<Brand>(&mut pass, code);
        Ok((inbox, pass))
    }

    // Tells the inbox its code.
    fn tell<C: CodeName>(&self, pass: &mut InboxPass<S>, code: &CodeBody)
        requires fresh { IsInboxPass self.now pass.old × (inbox_view pass.old ≡ untold) }
        requires code { Some code.now ≡ C.code }
        ensures { IsInboxPass self.now pass.new × (inbox_view pass.new ≡ view_with (Some code.now) 16 [] []) }
    {
        let _ = code;
        let _spent = self.queue.another::<TellCode<C>>(&mut pass.pass);
    }

    /// Gives one share to a new pass.
    pub fn another(&self, pass: &mut InboxPass<S>) -> InboxPass<S>
        requires { IsInboxPass self.now pass.old × (1 < (inbox_view pass.old).shares) }
        ensures passes { IsInboxPass self.now pass.new × IsInboxPass self.now result }
        ensures views { let v = inbox_view pass.old in (inbox_view pass.new ≡ view_with v.code (v.shares - 1) v.put v.taken) × (inbox_view result ≡ view_with v.code 1 [] []) }
    {
        let pass = self.queue.another::<GiveOne>(&mut pass.pass);
        InboxPass { pass }
    }

    /// Moves all that a pass has and knows to a new pass.
    pub fn moved(&self, pass: &mut InboxPass<S>) -> InboxPass<S>
        requires { IsInboxPass self.now pass.old × (0 < (inbox_view pass.old).shares) }
        ensures passes { IsInboxPass self.now pass.new × IsInboxPass self.now result }
        ensures views { (inbox_view pass.new ≡ spent) × (inbox_view result ≡ inbox_view pass.old) }
    {
        let pass = self.queue.another::<GiveAll>(&mut pass.pass);
        InboxPass { pass }
    }

    /// Takes in what another pass has and knows.
    pub fn absorb(&self, pass: &mut InboxPass<S>, other: InboxPass<S>)
        requires { IsInboxPass self.now pass.old × IsInboxPass self.now other × (0 < (inbox_view pass.old).shares) }
        ensures pass { IsInboxPass self.now pass.new }
        ensures view { inbox_view pass.new ≡ both_of (inbox_view pass.old) (inbox_view other) }
    {
        let InboxPass { pass: other } = other;
        self.queue.absorb::<AddUp>(&mut pass.pass, other);
    }

    /// Adds a slice at the back, or hands it back.
    pub fn put<R: Wait>(&self, rt: &R, pass: &mut InboxPass<S>, slice: S) -> Result<(), S>
        requires pass { IsInboxPass self.now pass.old × (0 < (inbox_view pass.old).shares) }
        requires slice { Some (S.belongs slice) ≡ (inbox_view pass.old).code }
        ensures pass { IsInboxPass self.now pass.new }
        ensures ok { let v = inbox_view pass.old in OnOk result (inbox_view pass.new ≡ view_with v.code v.shares (v.put ++ S.number slice ∷ []) v.taken) }
        ensures err { IfErr result (λ x. (x ≡ slice) × (inbox_view pass.new ≡ inbox_view pass.old)) }
    {
        self.queue.push_as::<PutOne, R>(rt, &mut pass.pass, slice)
    }

    /// Takes the first slice. `None` only where the inbox was empty at a step of the call.
    pub fn take<R: Wait>(&self, rt: &R, pass: &mut InboxPass<S>) -> Option<S>
        requires { IsInboxPass self.now pass.old × (0 < (inbox_view pass.old).shares) }
        ensures pass { IsInboxPass self.now pass.new }
        ensures slice { let v = inbox_view pass.old in MatchOption result ((inbox_view pass.new ≡ v) × MetEmpty S.number S.belongs v) (IsTakenOut S.number S.belongs v (inbox_view pass.new)) }
        ensures alone { let v = inbox_view pass.old in v.shares ≡ 16 → IsNone result ↔ SameTickets v.put v.taken }
    {
        self.queue.pop_as::<TakeOne, R>(rt, &mut pass.pass)
    }
}
