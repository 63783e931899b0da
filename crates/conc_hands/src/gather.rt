//! Gathering what all hands know, for the end. None of it takes memory.
ghost use Rattle.std.specs.Prelude.{◌≡◌, ◌+◌, ◌<◌, ◌++◌, ℕ, Some, length, slice_get};
ghost use Rattle.conc_hands.specs.queues.Deques.{door_id};
ghost use Rattle.conc_hands.specs.queues.QueueRule.{both_of};
ghost use Rattle.conc_hands.specs.queues.Inboxes.{IsInboxPass, inbox_view};
ghost use Rattle.conc_hands.specs.flags.FlagsRule.{pen_view};
ghost use Rattle.conc_hands.specs.flags.Pens.{IsPenOf, view_of};
ghost use Rattle.conc_hands.specs.Gathering.{ends_in, AreEnds, AreDealt, AreWhole, IsConserved, IsSpentAt, number_at, Swapped, HasRights, HaveRights, shares_over};
ghost use Rattle.conc_hands.specs.Hands.{inbox_view_of, raised_by, read_by};
ghost use Rattle.conc_hands.specs.Lists.{all_raised, all_read, all_handed_in, all_collected};

use crate::flags::{Flags, Pen};
use crate::hand::{Hand, JobsEnd};
use crate::queues::{DequePass, Door, Inbox, InboxPass};
use hs_rules::Ticketed;
use std::mem;

/// Moves all passes of the inbox, and all pens, into one of each.
pub(crate) fn gather_rights<J: Ticketed, S: Ticketed + Drop>(
    inbox: &Inbox<S>,
    flags: &Flags,
    hands: &mut Vec<Hand<J, S>>,
) -> (InboxPass<S>, Pen)
    requires some { 0 < length hands.old.items }
    requires rights { HaveRights inbox.now flags.now hands.old.items }
    ensures same { ends_in hands.new.items ≡ ends_in hands.old.items }
    ensures post { IsInboxPass inbox.now result.0 × ((inbox_view result.0).shares ≡ shares_over hands.old.items) × ((inbox_view result.0).put ≡ all_handed_in hands.old.items) × ((inbox_view result.0).taken ≡ all_collected hands.old.items) }
    ensures pen { IsPenOf flags.now result.1 × (view_of result.1 ≡ pen_view (length hands.old.items) (all_raised hands.old.items) (all_read hands.old.items)) }
{
    let (mut post, mut pen) = first_rights(inbox, flags, &mut hands[0]);
    let mut at = 1;
    while at < hands.len() {
        more_rights(inbox, flags, &mut hands[at], &mut post, &mut pen);
        at += 1;
    }
    (post, pen)
}

// The pass and the pen of one hand.
fn first_rights<J: Ticketed, S: Ticketed + Drop>(
    inbox: &Inbox<S>,
    flags: &Flags,
    hand: &mut Hand<J, S>,
) -> (InboxPass<S>, Pen)
    requires { HasRights inbox.now flags.now hand.old }
    ensures same { hand.new.jobs ≡ hand.old.jobs }
    ensures post { IsInboxPass inbox.now result.0 × (inbox_view result.0 ≡ inbox_view_of hand.old) }
    ensures pen { IsPenOf flags.now result.1 × (view_of result.1 ≡ pen_view 1 (raised_by hand.old) (read_by hand.old)) }
{
    let post = inbox.moved(&mut hand.post);
    let pen = flags.moved(&mut hand.pen);
    (post, pen)
}

// The same, added to what there is.
fn more_rights<J: Ticketed, S: Ticketed + Drop>(
    inbox: &Inbox<S>,
    flags: &Flags,
    hand: &mut Hand<J, S>,
    post: &mut InboxPass<S>,
    pen: &mut Pen,
)
    requires rights { HasRights inbox.now flags.now hand.old }
    requires post { IsInboxPass inbox.now post.old × (0 < (inbox_view post.old).shares) }
    requires pen { IsPenOf flags.now pen.old }
    ensures same { hand.new.jobs ≡ hand.old.jobs }
    ensures post { IsInboxPass inbox.now post.new × (inbox_view post.new ≡ both_of (inbox_view post.old) (inbox_view_of hand.old)) }
    ensures pen { let v = view_of pen.old in IsPenOf flags.now pen.new × (view_of pen.new ≡ pen_view (v.shares + 1) (v.raised ++ raised_by hand.old) (v.read ++ read_by hand.old)) }
{
    let (more_post, more_pen) = first_rights(inbox, flags, hand);
    inbox.absorb(post, more_post);
    flags.absorb(pen, more_pen);
}

/// Takes all passes of the deques in at their owners.
pub(crate) fn gather_jobs<J: Ticketed, S: Ticketed>(
    doors: &Vec<Door<J>>,
    hands: &mut Vec<Hand<J, S>>,
)
    requires ends { AreEnds doors.now.items (ends_in hands.old.items) }
    requires dealt { AreDealt doors.now.items (ends_in hands.old.items) }
    ensures whole { AreWhole (ends_in hands.new.items) }
    ensures count { length hands.new.items ≡ length hands.old.items }
    ensures conserved { IsConserved (ends_in hands.old.items) (ends_in hands.new.items) }
{
    let mut at = 0;
    while at < hands.len() {
        gather_deque(doors, hands, at);
        at += 1;
    }
}

// Takes all passes of one deque in at its owner.
fn gather_deque<J: Ticketed, S: Ticketed>(
    doors: &Vec<Door<J>>,
    hands: &mut Vec<Hand<J, S>>,
    owner: usize,
)
    requires owner { owner < length hands.old.items }
    requires ends { AreEnds doors.now.items (ends_in hands.old.items) }
    ensures ends { AreEnds doors.now.items (ends_in hands.new.items) }
    ensures count { length hands.new.items ≡ length hands.old.items }
    ensures conserved { IsConserved (ends_in hands.old.items) (ends_in hands.new.items) }
    ensures spent { (q : ℕ) → q < length hands.old.items → IsSpentAt (ends_in hands.new.items) q (number_at (ends_in hands.old.items) owner) }
{
    let mut at = 0;
    while at < hands.len() {
        gather_pass(doors, hands, owner, at);
        at += 1;
    }
}

// Takes one pass in.
fn gather_pass<J: Ticketed, S: Ticketed>(
    doors: &Vec<Door<J>>,
    hands: &mut Vec<Hand<J, S>>,
    owner: usize,
    at: usize,
)
    requires places { (owner < length hands.old.items) × (at < length hands.old.items) }
    requires ends { AreEnds doors.now.items (ends_in hands.old.items) }
    ensures ends { AreEnds doors.now.items (ends_in hands.new.items) }
    ensures count { length hands.new.items ≡ length hands.old.items }
    ensures conserved { IsConserved (ends_in hands.old.items) (ends_in hands.new.items) }
    ensures spent { IsSpentAt (ends_in hands.new.items) at (number_at (ends_in hands.old.items) owner) }
{
    let number = hands[owner].jobs.number as usize;
    let pass = swap_pass(&mut hands[at].jobs, &doors[number], number);
    hands[owner].jobs.deque.absorb(pass);
}

// Takes a pass out, and leaves a spent one.
fn swap_pass<J: Ticketed>(end: &mut JobsEnd<J>, door: &Door<J>, place: usize) -> DequePass<J>
    requires { place < length end.old.passes.items }
    ensures pass { slice_get end.old.passes.items place ≡ Some result }
    ensures left { Swapped (door_id door.now) place end.old end.new }
{
    mem::replace(&mut end.passes[place], door.spent_pass())
}
