//! Which thread is next, whether some thread is to do an action, and which may be stranded.
ghost use Rattle.std.specs.Prelude.{◌≡◌, ◌<◌, ◌≤◌, ◌∷◌, ◌++◌, ℕ, length, drop, Some, None, true, false, nat_eq, IsSome, IfSome, IfNone, OnSome, MatchBool, List, option_to_list, slice_get};
ghost use Rattle.std.specs.HashMap.{get};
ghost use Rattle.rules_code.specs.declared.code.CodeBody.{CodeBody};
ghost use Rattle.thread_table.specs.declared.thread.Thread.{Thread};
ghost use Rattle.thread_table.specs.Table.{slots_of, changed, with_listed, unqueued, unlisted, IsAt};
ghost use Rattle.thread_table.specs.Moving.{IsStranded};
ghost use Rattle.thread_table.specs.Listing.{wants as wants_by, waits_open, NobodyWants, Goes};

use crate::kinds::EntryKind;
use crate::listing::{cell_of, goes_at, has_own, waits_open, wants};
use crate::threads::Threads;
use frame_stack::Control;
use hs_base::Exn;
use std::collections::HashMap;

impl Threads {
    ghost use Rattle.thread_table.specs.Rooms.{work_room, ready_room, Spends};
    ghost use Rattle.thread_table.specs.Kinds.{IsKind};

    /// A thread that has something to do, where there is one. What has nothing to do leaves the list, once for each time that
    /// it came in.
    pub fn next(&mut self) -> Option<u32>
        ensures some { IfSome result (λ t. wants_by t self.new.list.items self.new.flight.list ≡ true) }
        ensures none { IfNone result (NobodyWants self.new.list.items self.new.flight.list) }
        ensures list { self.new.list ≡ self.old.list }
        ensures flight { self.new.flight ≡ self.old.flight }
        ensures spends { Spends 0 0 0 0 self.old self.new }
    {
        while let Some(t) = self.work.pop_front() {
            if wants(&self.list, &self.flight, t) {
                self.work.push_back_reserved(t);
                return Some(t);
            }
        }
        None
    }

    /// What a thread that has something to do is to do: an entry of its own before a receive.
    pub fn kind(&self, t: u32) -> EntryKind
        requires { wants_by t self.now.list.items self.now.flight.list ≡ true }
        ensures { IsKind result t self.now }
    {
        let thread = &self.list[t as usize];
        if !has_own(thread) {
            return EntryKind::Receive;
        }
        match thread.stack.control() {
            Control::Op(_) => EntryKind::Op,
            _ if thread.stack.frames() == 0 => EntryKind::Finish,
            _ => EntryKind::Local,
        }
    }

    /// A thread that is to do an action and has no job out, where there is one. The list goes round: a thread that is to do an
    /// action stays in it, at its end, and one that isn't leaves it.
    pub fn next_ready(&mut self, out: &HashMap<u32, u64>) -> Option<u32>
        ensures some { IfSome result (λ t. IsAt t Goes self.new.list.items × (get nat_eq out.now t ≡ None)) }
        ensures none { IfNone result ((t : ℕ) → IsAt t Goes self.new.list.items → IsSome (get nat_eq out.now t)) }
        ensures others { unqueued self.new.list.items ≡ unqueued self.old.list.items }
        ensures slots { (b : CodeBody) → slots_of b self.new.list.items ≡ slots_of b self.old.list.items }
        ensures flight { self.new.flight ≡ self.old.flight }
        ensures spends { Spends 0 0 0 0 self.old self.new }
    {
        for _turn in 0..self.ready.len() {
            if let Some(t) = self.turn() {
                if !out.contains_key(&t) {
                    return Some(t);
                }
            }
        }
        None
    }

    /// Takes the first thread of the list of the ready to its end, and answers it, where it is to do an action; and out of the
    /// list where it isn't.
    fn turn(&mut self) -> Option<u32>
        ensures some { IfSome result (λ t. IsAt t Goes self.new.list.items) }
        ensures ready { self.new.ready.items ≡ drop 1 self.old.ready.items ++ option_to_list result }
        ensures others { unqueued self.new.list.items ≡ unqueued self.old.list.items }
        ensures flight { self.new.flight ≡ self.old.flight }
        ensures spends { Spends 0 0 0 0 self.old self.new }
    {
        let t = self.ready.pop_front()?;
        if goes_at(&self.list, t) {
            self.ready.push_back_reserved(t);
            return Some(t);
        }
        if (t as usize) < self.list.len() {
            self.list[t as usize].queued = false;
        }
        None
    }

    /// Whether some thread is to do an action: it hasn't finished and isn't blocked.
    pub fn some_goes(&self) -> bool
        ensures { MatchBool result ((t : ℕ) × IsAt t Goes self.now.list.items) ((t : ℕ) (th : Thread) → slice_get self.now.list.items t ≡ Some th → Goes th → ⊥) }
    {
        self.going != 0
    }

    /// Whether some thread may be stranded.
    pub fn may_strand(&mut self) -> bool
        ensures found { MatchBool result ((t : ℕ) × (waits_open (slice_get self.new.list.items t) ≡ true)) ((t : ℕ) → waits_open (slice_get self.new.list.items t) ≡ false) }
        ensures front { MatchBool result ((t : ℕ) × (ts : List ℕ) × (self.new.stuck.items ≡ t ∷ ts) × (waits_open (slice_get self.new.list.items t) ≡ true)) (Unit {0}) }
        ensures others { unlisted self.new.list.items ≡ unlisted self.old.list.items }
        ensures fewer { length self.new.stuck.items ≤ length self.old.stuck.items }
        ensures slots { (b : CodeBody) → slots_of b self.new.list.items ≡ slots_of b self.old.list.items }
        ensures flight { self.new.flight ≡ self.old.flight }
        ensures spends { Spends 0 0 0 0 self.old self.new }
    {
        while let Some(&t) = self.stuck.front() {
            if waits_open(&self.list, t) {
                return true;
            }
            self.unlist(t);
        }
        false
    }

    /// Takes the first thread out of the list of those who may be stranded.
    fn unlist(&mut self, t: u32)
        requires first { (ts : List ℕ) × (self.old.stuck.items ≡ t ∷ ts) }
        requires not { waits_open (slice_get self.old.list.items t) ≡ false }
        ensures list { self.new.list.items ≡ changed t (with_listed false) self.old.list.items }
        ensures stuck { self.old.stuck.items ≡ t ∷ self.new.stuck.items }
        ensures flight { self.new.flight ≡ self.old.flight }
        ensures spends { Spends 0 0 0 0 self.old self.new }
    {
        let _ = self.stuck.pop_front();
        if (t as usize) < self.list.len() {
            self.list[t as usize].listed = false;
        }
    }

    /// Strands a thread that may be stranded, where there is one: it throws, and is blocked no more. Answers it, and the cell
    /// at which it waited.
    pub fn strand(&mut self) -> Option<(u32, u32)>
        requires room { length self.old.stuck.items ≤ work_room self.old }
        ensures some { IfSome result (λ w. IsStranded w.0 w.1 self.old.list.items self.new.list.items) }
        ensures none { IfNone result (((t : ℕ) → waits_open (slice_get self.old.list.items t) ≡ false) × ((b : CodeBody) → slots_of b self.new.list.items ≡ slots_of b self.old.list.items)) }
        ensures flight { self.new.flight ≡ self.old.flight }
        ensures less { OnSome result (length self.new.stuck.items < length self.old.stuck.items) }
        ensures room { length self.new.stuck.items ≤ work_room self.new }
    {
        if !self.may_strand() {
            return None;
        }
        let t = self.stuck.pop_front()?;
        let cell = cell_of(&self.list[t as usize]);
        let thread = &mut self.list[t as usize];
        thread.listed = false;
        thread.blocked = false;
        thread.stack.receive(Exn::BlockedIndefinitely);
        self.work.push_back_reserved(t);
        Some((t, cell))
    }
}
