//! Making the hands.
ghost use Rattle.std.specs.Prelude.{◌≡◌, ◌<◌, ◌≤◌, [], length, Some, IfOk};
ghost use Rattle.rules_code.specs.Codes.{body_of};
ghost use Rattle.conc_hands.specs.queues.QueueRule.{view_with};
ghost use Rattle.conc_hands.specs.queues.Inboxes.{IsInboxPass, inbox_view};
ghost use Rattle.conc_hands.specs.flags.FlagsRule.{pen_view};
ghost use Rattle.conc_hands.specs.flags.Pens.{IsPenOf, view_of};
ghost use Rattle.conc_hands.specs.Dealing.{IsLaidOut, IsDequeOf, IsRowOf, IsDealtPost, IsFresh, AreFresh};
ghost use Rattle.conc_hands.specs.Hands.{hands_code, hands_count, IsHandOf, number_of};
ghost use Rattle.conc_hands.specs.Lists.{hands_in};

use crate::deal::{Dealt, lay_out};
use crate::flags::{Flags, Pen};
use crate::hand::{Hand, JobsEnd};
use crate::hands::Hands;
use crate::list::HandList;
use crate::queues::{Deque, DequePass, Inbox, InboxPass};
use hs_base::NoMemory;
use hs_rules::Ticketed;
use rules_code::{Code, CodeBody};
use std::alloc::{AllocError, Global};

/// All shares of the inbox and of the flags.
struct Shares<S: Ticketed> {
    post: InboxPass<S>,
    pen: Pen,
}

impl<J: Ticketed + Drop, S: Ticketed + Drop> Hands<J, S> {
    /// The hands of so many capabilities, for jobs and slices of this code. The list has the hands in order of number,
    /// and is full.
    pub fn new(
        alloc: Global,
        caps: u32,
        code: &Code,
    ) -> Result<(Hands<J, S>, HandList<J, S>), NoMemory>
        requires { (0 < caps) × (caps ≤ 16) }
        ensures hands { IfOk result (λ r. (hands_count r.0 ≡ caps) × (hands_code r.0 ≡ body_of code.now)) }
        ensures list { IfOk result (λ r. (length (hands_in r.1) ≡ caps) × AreFresh r.0 (hands_in r.1)) }
    {
        let body: &CodeBody = &code.body;
        let (flags, pen) = Flags::new(alloc, caps, body)?;
        let (inbox, post) = Inbox::new(alloc, body)?;
        let Dealt {
            deques,
            doors,
            rows,
        } = lay_out(alloc, caps, body)?;
        let shared = Hands {
            doors,
            inbox,
            flags,
        };
        let list = shared.hand_out(alloc, caps, deques, rows, Shares { post, pen })?;
        Ok((shared, list))
    }

    // Puts the hands together. The last one gets what is left of the inbox and of the flags.
    fn hand_out(
        &self,
        alloc: Global,
        caps: u32,
        mut deques: Vec<Deque<J>>,
        mut rows: Vec<Vec<DequePass<J>>>,
        shares: Shares<S>,
    ) -> Result<HandList<J, S>, NoMemory>
        requires caps { (0 < caps) × (caps ≤ 16) × (hands_count self.now ≡ caps) }
        requires dealt { IsLaidOut (hands_code self.now) caps deques.items self.now.doors.items rows.items }
        requires post { IsInboxPass self.now.inbox shares.post × (inbox_view shares.post ≡ view_with (Some (hands_code self.now)) 16 [] []) }
        requires pen { IsPenOf self.now.flags shares.pen × (view_of shares.pen ≡ pen_view caps [] []) }
        ensures { IfOk result (λ list. (length (hands_in list) ≡ caps) × AreFresh self.now (hands_in list)) }
    {
        let Shares { mut post, mut pen } = shares;
        let mut hands = Vec::with_capacity(alloc, caps as usize)?;
        let mut number = 0;
        while number + 1 < caps {
            let own_post = self.inbox.another(&mut post);
            let own_pen = self.flags.another(&mut pen);
            let hand = self.hand_of(number, deques.remove(0), rows.remove(0), own_post, own_pen);
            hands.push(hand).map_err(AllocError::from)?;
            number += 1;
        }
        let last = self.hand_of(number, deques.remove(0), rows.remove(0), post, pen);
        hands.push(last).map_err(AllocError::from)?;
        Ok(HandList { hands })
    }

    // One hand, from what was dealt for it.
    fn hand_of(
        &self,
        number: u32,
        deque: Deque<J>,
        passes: Vec<DequePass<J>>,
        post: InboxPass<S>,
        pen: Pen,
    ) -> Hand<J, S>
        requires place { (number < hands_count self.now) × (hands_count self.now ≤ 16) × (length self.now.doors.items ≡ hands_count self.now) }
        requires jobs { IsDequeOf self.now.doors.items (hands_code self.now) (hands_count self.now) number deque × IsRowOf self.now.doors.items (hands_code self.now) (hands_count self.now) number passes }
        requires post { IsInboxPass self.now.inbox post × IsDealtPost (hands_code self.now) (hands_count self.now) number (inbox_view post) }
        requires pen { IsPenOf self.now.flags pen × (view_of pen ≡ pen_view 1 [] []) }
        ensures hand { IsHandOf self.now result }
        ensures fresh { (number_of result ≡ number) × IsFresh result }
    {
        Hand {
            jobs: JobsEnd {
                number,
                deque,
                passes,
            },
            post,
            pen,
        }
    }
}
