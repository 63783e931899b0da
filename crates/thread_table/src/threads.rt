ghost use Rattle.std.specs.Prelude.{◌≡◌, ◌<◌, ◌≤◌, ◌+◌, ◌++◌, ◌∷◌, ◌^◌, [], length, Some, true, false, IsTrue, IfOk, IfErr, OnOk, OnErr, Bool};
ghost use Rattle.rules_waiting.specs.Waiting.{flying_to, withdrawn, is_throwing, first_thrown};
ghost use Rattle.exn_flight.specs.Flights.{after_delivery};
ghost use Rattle.hs_base.specs.declared.mask.Mask.TheVariants.{Unmasked};
ghost use Rattle.rules_code.specs.Codes.{body_of};
ghost use Rattle.local_steps.specs.Frames.{mask_inside};
ghost use Rattle.frame_stack.specs.declared.control.Control.TheVariants as control;
ghost use Rattle.frame_stack.specs.Parts.{IsOp, IsThrow, Meets, term_of};
ghost use Rattle.frame_stack.specs.Advancing.{MayAdvance};
ghost use Rattle.thread_table.specs.Table.{changed, with_control, finishing, with_queued, new_thread, IsAt, frames_over};
ghost use Rattle.thread_table.specs.Moving.{HasMoved, IsNextStack, IsStuck, IsTaken, rules_of};
ghost use Rattle.thread_table.specs.Listing.{Listed, Queued, Kept, queued_after, going_over};

use crate::listing::{counted_frames, counted_going, may_strand};
use crate::thread::Thread;
use exn_flight::Flight;
use frame_stack::{Slice, Stack};
use hs_base::{Exn, NoMemory, Value};
use rules_code::Code;
use std::alloc::Global;
use std::collections::VecDeque;

/// With so many frames or more there is room for no entry.
const MOST_FRAMES: u64 = 1 << 62;

/// The threads of a run, by number, and the exceptions in flight to them.
pub struct Threads {
    pub list: Vec<Thread>,
    pub flight: Flight,
    /// Each thread that has an entry of its own or something to receive.
    pub work: VecDeque<u32>,
    /// Each thread that is to do an action.
    pub ready: VecDeque<u32>,
    /// Each thread that may be stranded.
    pub stuck: VecDeque<u32>,
    /// The frames of all threads that haven't finished.
    pub frames: u64,
    /// How many threads are to do an action.
    pub going: u64,
    pub ghost listed: { Listed list.items flight.list work.items },
    pub ghost queued: { Queued list.items ready.items },
    pub ghost kept: { Kept list.items stuck.items },
    pub ghost framed: { frames ≡ frames_over list.items },
    pub ghost gone: { going ≡ going_over list.items },
}

// Written out, so that it is proved once, here, and not in each function above that lets one go.
impl Drop for Threads {
    fn drop(self) {
        let Threads {
            list: _,
            flight: _,
            work: _,
            ready: _,
            stuck: _,
            frames: _,
            going: _,
        } = self;
    }
}

impl Threads {
    ghost use Rattle.thread_table.specs.Rooms.{work_room, ready_room, stuck_room, thread_room, HasRoom, Spends};

    /// One thread with this stack, and nothing in flight.
    pub fn first(alloc: Global, stack: Stack) -> Result<Threads, NoMemory>
        ensures list { IfOk result (λ s. s.list.items ≡ new_thread stack ∷ []) }
        ensures flight { IfOk result (λ s. s.flight.list ≡ []) }
    {
        let mut threads = Threads {
            list: Vec::with_capacity(alloc, 1)?,
            flight: Flight::new(alloc),
            work: VecDeque::with_capacity(alloc, 1)?,
            ready: VecDeque::with_capacity(alloc, 1)?,
            stuck: VecDeque::new(alloc),
            frames: 0,
            going: 0,
        };
        let _ = threads.spawn(stack);
        Ok(threads)
    }

    /// Makes room for one entry.
    pub fn room(&mut self) -> Result<(), NoMemory>
        ensures list { self.new.list.items ≡ self.old.list.items }
        ensures flight { self.new.flight.list ≡ self.old.flight.list }
        ensures ok { OnOk result (HasRoom self.new) }
    {
        if self.frames >= MOST_FRAMES {
            return Err(NoMemory);
        }
        self.flight.room(1)?;
        let Some(most) = self.flight.most().checked_add(self.stuck.len()) else {
            return Err(NoMemory);
        };
        let Some(most) = most.checked_add(3) else {
            return Err(NoMemory);
        };
        self.work.reserve(most)?;
        self.ready.reserve(2)?;
        self.stuck.reserve(1)?;
        self.list.reserve(1)?;
        Ok(())
    }

    /// Makes room for n more in the list of work.
    pub fn room_for(&mut self, n: usize) -> Result<(), NoMemory>
        ensures list { self.new.list ≡ self.old.list }
        ensures flight { self.new.flight ≡ self.old.flight }
        ensures stuck { self.new.stuck ≡ self.old.stuck }
        ensures ok { OnOk result (n ≤ work_room self.new) }
        ensures kept { Spends 0 0 0 0 self.old self.new }
        ensures counts { (self.new.frames ≡ self.old.frames) × (self.new.going ≡ self.old.going) }
    {
        self.work.reserve(n)?;
        Ok(())
    }

    /// Answers the operation that the thread stands at.
    pub fn answer(&mut self, t: u32, v: Value)
        requires there { IsAt t (λ th. IsOp th.stack.control) self.old.list.items }
        requires room { 1 ≤ work_room self.old }
        ensures list { self.new.list.items ≡ changed t (with_control (control.Ret v)) self.old.list.items }
        ensures flight { self.new.flight ≡ self.old.flight }
        ensures spends { Spends 1 0 0 0 self.old self.new }
    {
        let thread = &mut self.list[t as usize];
        thread.stack.answer(v);
        thread.blocked = false;
        self.work.push_back_reserved(t);
    }

    /// The thread, which doesn't throw, throws where it stands.
    pub fn throw(&mut self, t: u32, e: Exn)
        requires there { IsAt t (λ th. IsThrow th.stack.control → ⊥) self.old.list.items }
        requires room { 1 ≤ work_room self.old }
        ensures list { self.new.list.items ≡ changed t (with_control (control.Throw e)) self.old.list.items }
        ensures flight { self.new.flight ≡ self.old.flight }
        ensures spends { Spends 1 0 0 0 self.old self.new }
    {
        let thread = &mut self.list[t as usize];
        let going = counted_going(thread);
        thread.stack.receive(e);
        thread.blocked = false;
        self.going -= going;
        self.work.push_back_reserved(t);
    }

    /// The thread waits from now on.
    pub fn block(&mut self, t: u32)
        requires there { IsAt t (λ th. IsOp th.stack.control) self.old.list.items }
        requires work { 1 ≤ work_room self.old }
        requires stuck { 1 ≤ stuck_room self.old }
        ensures list { (l : Bool) × (self.new.list.items ≡ changed t (λ th. record th { blocked = true; listed = l }) self.old.list.items) }
        ensures flight { self.new.flight ≡ self.old.flight }
        ensures spends { Spends 1 0 1 0 self.old self.new }
    {
        let thread = &mut self.list[t as usize];
        thread.blocked = true;
        self.work.push_back_reserved(t);
        if may_strand(&self.list[t as usize]) && !self.list[t as usize].listed {
            self.list[t as usize].listed = true;
            self.stuck.push_back_reserved(t);
        }
    }

    /// The thread has finished.
    pub fn finish(&mut self, t: u32)
        requires there { IsAt t (λ th. th.blocked ≡ false) self.old.list.items }
        ensures list { self.new.list.items ≡ changed t finishing self.old.list.items }
        ensures flight { self.new.flight ≡ self.old.flight }
        ensures spends { Spends 0 0 0 0 self.old self.new }
    {
        let thread = &mut self.list[t as usize];
        let frames = counted_frames(thread);
        let going = counted_going(thread);
        thread.finished = true;
        self.frames -= frames;
        self.going -= going;
    }

    /// One local rule of a thread whose control is a value or an exception in a frame.
    pub fn pop(&mut self, t: u32)
        requires there { IsAt t (λ th. Meets th.stack × (th.blocked ≡ false)) self.old.list.items }
        requires few { self.old.frames < 2 ^ 62 }
        requires work { 1 ≤ work_room self.old }
        requires ready { 1 ≤ ready_room self.old }
        ensures list { HasMoved t IsNextStack self.old.list.items self.new.list.items }
        ensures flight { self.new.flight ≡ self.old.flight }
        ensures spends { Spends 1 1 0 0 self.old self.new }
    {
        let thread = &mut self.list[t as usize];
        let had = counted_frames(thread);
        thread.stack.pop_step();
        let has = counted_frames(thread);
        let going = counted_going(thread);
        queue(thread, &mut self.ready, t);
        self.frames = self.frames - had + has;
        self.going += going;
        self.work.push_back_reserved(t);
    }

    /// The thread moves by the rules of a slice that starts with its control, in its masking state. Where memory runs out the
    /// slice comes back and nothing has changed.
    pub fn accept(&mut self, slice: Slice) -> Result<(), Slice>
        requires there { IsAt slice.tid (λ th. (th.stack.control ≡ slice.start) × (mask_inside Unmasked th.stack.frames ≡ slice.mask) × (th.blocked ≡ false)) self.old.list.items }
        requires few { self.old.frames < 2 ^ 62 }
        requires work { 1 ≤ work_room self.old }
        requires ready { 1 ≤ ready_room self.old }
        ensures ok { OnOk result (IsTaken slice self.old.list.items self.new.list.items) }
        ensures err { OnErr result (self.new.list.items ≡ self.old.list.items) }
        ensures back { IfErr result (λ s. s ≡ slice) }
        ensures flight { self.new.flight ≡ self.old.flight }
        ensures spends { Spends 1 1 0 0 self.old self.new }
    {
        let t = slice.tid;
        let thread = &mut self.list[t as usize];
        let had = counted_frames(thread);
        let went = counted_going(thread);
        thread.stack.accept(slice)?;
        let has = counted_frames(thread);
        let goes = counted_going(thread);
        queue(thread, &mut self.ready, t);
        self.frames = self.frames - had + has;
        self.going = self.going - went + goes;
        self.work.push_back_reserved(t);
        Ok(())
    }

    /// So many local rules of the thread, as they come. Where there are no so many, or memory runs out, nothing has changed.
    pub fn advance(&mut self, alloc: Global, code: &Code, t: u32, k: u32) -> Result<bool, NoMemory>
        requires there { IsAt t (λ th. (th.blocked ≡ false) × MayAdvance (body_of code.now) th.stack) self.old.list.items }
        requires few { self.old.frames < 2 ^ 62 }
        requires work { 1 ≤ work_room self.old }
        requires ready { 1 ≤ ready_room self.old }
        ensures moved { IfOk result (λ done. IsTrue done → HasMoved t (λ old new. rules_of (body_of code.now) k old ≡ Some (term_of (body_of code.now) new)) self.old.list.items self.new.list.items) }
        ensures stuck { IfOk result (λ done. (done ≡ false) → IsStuck t (body_of code.now) k self.old.list.items self.new.list.items) }
        ensures err { OnErr result (self.new.list.items ≡ self.old.list.items) }
        ensures flight { self.new.flight ≡ self.old.flight }
        ensures spends { Spends 1 1 0 0 self.old self.new }
    {
        let thread = &mut self.list[t as usize];
        let had = counted_frames(thread);
        let went = counted_going(thread);
        if !thread.stack.advance(alloc, code, k)? {
            return Ok(false);
        }
        let has = counted_frames(thread);
        let goes = counted_going(thread);
        queue(thread, &mut self.ready, t);
        self.frames = self.frames - had + has;
        self.going = self.going - went + goes;
        self.work.push_back_reserved(t);
        Ok(true)
    }

    /// A new thread with this stack; answers its number.
    pub fn spawn(&mut self, stack: Stack) -> u32
        requires few { length self.old.list.items < 2 ^ 32 }
        requires frames { self.old.frames < 2 ^ 62 }
        requires list { 1 ≤ thread_room self.old }
        requires work { 1 ≤ work_room self.old }
        requires ready { 1 ≤ ready_room self.old }
        ensures number { result ≡ length self.old.list.items }
        ensures list { self.new.list.items ≡ self.old.list.items ++ new_thread stack ∷ [] }
        ensures flight { self.new.flight ≡ self.old.flight }
        ensures spends { Spends 1 1 0 1 self.old self.new }
    {
        let t = self.list.len() as u32;
        let thread = Thread {
            stack,
            blocked: false,
            finished: false,
            queued: true,
            listed: false,
        };
        let frames = counted_frames(&thread);
        let going = counted_going(&thread);
        self.frames += frames;
        self.going += going;
        self.list.push_reserved(thread);
        self.work.push_back_reserved(t);
        self.ready.push_back_reserved(t);
        t
    }

    /// The exception is in flight from now on.
    pub fn throw_at(&mut self, thrower: u32, target: u32, e: Exn)
        requires room { 1 ≤ work_room self.old }
        requires spare { 1 ≤ self.old.flight.spare }
        requires alone { is_throwing thrower self.old.flight.list ≡ false }
        ensures list { self.new.list ≡ self.old.list }
        ensures flight { self.new.flight.list ≡ self.old.flight.list ++ record { thrower = thrower; target = target; exn = e } ∷ [] }
        ensures work { work_room self.old ≤ work_room self.new + 1 }
        ensures stuck { stuck_room self.old ≤ stuck_room self.new }
    {
        self.flight.throw_at(thrower, target, e);
        self.work.push_back_reserved(target);
    }

    /// Takes out the first exception in flight to the thread.
    pub fn deliver(&mut self, target: u32) -> Option<(u32, Exn)>
        ensures answer { result ≡ first_thrown (flying_to target self.old.flight.list) }
        ensures list { self.new.list ≡ self.old.list }
        ensures flight { self.new.flight.list ≡ after_delivery (first_thrown (flying_to target self.old.flight.list)) self.old.flight.list }
        ensures spends { Spends 0 0 0 0 self.old self.new }
    {
        self.flight.deliver(target)
    }

    /// Takes out the thrower's exception.
    pub fn withdraw(&mut self, thrower: u32)
        ensures list { self.new.list ≡ self.old.list }
        ensures flight { self.new.flight.list ≡ withdrawn thrower self.old.flight.list }
        ensures spends { Spends 0 0 0 0 self.old self.new }
    {
        let _ = self.flight.withdraw(thrower);
    }
}

/// The thread of this number is in the list of the ready from now on: it is pushed where it didn't say so.
fn queue(thread: &mut Thread, ready: &mut VecDeque<u32>, t: u32)
    requires room { length ready.old.items < ready.old.cap }
    ensures says { thread.new ≡ with_queued true thread.old }
    ensures list { ready.new.items ≡ queued_after thread.old.queued t ready.old.items }
    ensures cap { ready.new.cap ≡ ready.old.cap }
{
    if !thread.queued {
        thread.queued = true;
        ready.push_back_reserved(t);
    }
}
