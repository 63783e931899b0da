ghost use Rattle.std.specs.Prelude.{◌≡◌, ◌+◌, ◌<◌, ◌≤◌, [], ◌∷◌, ◌++◌, ℕ, length, OnOk, IfOk, MatchResult, Some, true};
ghost use Rattle.std.specs.Option.{option_copied};
ghost use Rattle.rules_waiting.specs.OneCell.{Take, Read, Put, Try_take, Try_put, Leave, made, readers, stands_in};
ghost use Rattle.mvar_cell.specs.Calls.{cell_at, IsCall, StandsNowhere, NobodyReads, took_replies, saw_replies, gave_replies, tried_take_replies, tried_put_replies, HandsBack, TakesFrom, ReadsFrom, PutsTo, TriesToTake, TriesToPut};
ghost use Rattle.hs_base.specs.declared.value.Value.{Value};
ghost use Rattle.mvar_cell.specs.Readers.{IsNextReader};

use crate::lines::{Lines, Sought, Want};
use hs_base::{NoMemory, Value};
use std::alloc::Global;
use std::marker::Model;
use std::mem;

/// What `Cells::take` did.
#[derive(Drop)]
pub enum Took {
    Blocks,
    Done(Value),
    /// The value, and the thread whose put was served.
    Served(Value, u32),
}

/// What `Cells::read` did.
#[derive(Drop)]
pub enum Saw {
    Blocks,
    Done(Value),
}

/// What `Cells::put` did.
#[derive(Drop)]
pub enum Gave {
    Blocks,
    Done,
    /// The thread whose take was served, and its value.
    Served(u32, Value),
}

/// What `Cells::try_put` did.
#[derive(Drop)]
pub enum Tried {
    /// The cell is full, and the value comes back.
    Full(Value),
    Done,
    /// The thread whose take was served, and its value.
    Served(u32, Value),
}

/// The content of a cell, and how many of its line wait to read.
#[derive(Drop)]
struct Stored {
    content: Option<Value>,
    readers: usize,
}

/// Cells by number, with their lines.
pub struct Cells {
    alloc: Global,
    stored: Vec<Stored>,
    lines: Lines,
}

// Written out, so that it is proved once, here, and not in each function above that lets one go.
impl Drop for Cells {
    fn drop(self) {
        let Cells {
            alloc: _,
            stored: _,
            lines: _,
        } = self;
    }
}

/// How many numbers there are for cells.
const NUMBERS: usize = 1 << 32;

impl Model for Cells {
    ghost use Rattle.std.specs.Coded.{codes};
    ghost use Rattle.hs_base.specs.contracts.value.Value as value;
    ghost use Rattle.mvar_cell.specs.Mvars.{Mvars};

    ghost Value = { Mvars };

    ghost coded = { Prim.hlevel (codes, value.the_row.coded) };

    ghost use Rattle.mvar_cell.specs.Mvars.{mvars, AreCells};

    ghost view = { λ a. mvars a.stored.items a.lines a.stored.cap };

    ghost invariant = { λ a. AreCells a.stored.items a.lines.lines };
}

impl Cells {
    pub fn new(alloc: Global) -> Cells
        ensures { result.cells ≡ [] }
    {
        Cells {
            alloc,
            stored: Vec::new(alloc),
            lines: Lines::new(alloc),
        }
    }

    /// Makes `spare` at least `n`.
    pub fn room(&mut self, n: u32) -> Result<(), NoMemory>
        ensures cells { self.new.cells ≡ self.old.cells }
        ensures kept { self.old.spare ≤ self.new.spare }
        ensures ok { OnOk result (n ≤ self.new.spare) }
    {
        let n = n as usize;
        if NUMBERS.saturating_sub(self.stored.len()) < n {
            return Err(NoMemory);
        }
        self.stored.reserve(n)?;
        self.lines.room(n)?;
        Ok(())
    }

    /// How many cells there are.
    pub fn len(&self) -> usize
        ensures { result ≡ length self.now.cells }
    {
        self.stored.len()
    }

    /// A new cell with this content and an empty line; answers its number.
    pub fn fresh(&mut self, first: Option<Value>) -> u32
        requires { 1 ≤ self.old.spare }
        ensures number { result ≡ length self.old.cells }
        ensures cells { self.new.cells ≡ self.old.cells ++ made first ∷ [] }
        ensures spare { self.old.spare ≤ self.new.spare + 1 }
    {
        let number = self.stored.len() as u32;
        self.stored.push_reserved(Stored {
            content: first,
            readers: 0,
        });
        self.lines.fresh();
        number
    }

    /// Takes the content, or joins the line where there is none.
    pub fn take(&mut self, m: u32, t: u32) -> Took
        requires exists { m < length self.old.cells }
        requires spare { 1 ≤ self.old.spare }
        requires alone { StandsNowhere t self.old }
        ensures call { IsCall (Take t) m self.old self.new (took_replies t result) }
        ensures from { TakesFrom result (cell_at m self.old) }
        ensures spare { self.old.spare ≤ self.new.spare + 1 }
    {
        let Some((value, putter)) = self.try_take(m) else {
            self.lines.join(m as usize, t, Want::Take);
            return Took::Blocks;
        };
        match putter {
            None => Took::Done(value),
            Some(putter) => Took::Served(value, putter),
        }
    }

    /// A copy of the content, or joins the line as a reader where there is none. Nothing changes where memory runs out.
    pub fn read(&mut self, m: u32, t: u32) -> Result<Saw, NoMemory>
        requires exists { m < length self.old.cells }
        requires spare { 1 ≤ self.old.spare }
        requires alone { StandsNowhere t self.old }
        ensures call { MatchResult result (λ s. IsCall (Read t) m self.old self.new (saw_replies t s)) (λ _. self.new ≡ self.old) }
        ensures from { IfOk result (λ s. ReadsFrom s (cell_at m self.old)) }
        ensures spare { self.old.spare ≤ self.new.spare + 1 }
    {
        let m = m as usize;
        if let Some(value) = &self.stored[m].content {
            return Ok(Saw::Done(value.copy(self.alloc)?));
        }
        self.lines.join(m, t, Want::Read);
        self.stored[m].readers += 1;
        Ok(Saw::Blocks)
    }

    /// How many threads wait in the line.
    pub fn waiting(&self, m: u32) -> usize
        requires { m < length self.now.cells }
        ensures { result ≡ length (cell_at m self.now).line }
    {
        self.lines.waiting(m as usize)
    }

    /// How many threads of the line wait to read: nobody where the cell is full.
    pub fn readers(&self, m: u32) -> usize
        requires { m < length self.now.cells }
        ensures count { result ≡ length (readers (cell_at m self.now).line) }
        ensures full { (v : Value) → (cell_at m self.now).content ≡ Some v → result ≡ 0 }
    {
        self.stored[m as usize].readers
    }

    /// The first thread of the line that waits to read leaves it. A value that comes to the cell is first answered to all
    /// of these. The time is constant when spread over all calls: each place of a line is passed at most once, and each thread
    /// that leaves takes one step more.
    pub fn next_reader(&mut self, m: u32) -> Option<u32>
        requires { m < length self.old.cells }
        ensures next { IsNextReader result m self.old self.new }
        ensures spare { self.old.spare ≤ self.new.spare }
    {
        let m = m as usize;
        if self.stored[m].readers == 0 {
            return None;
        }
        let (reader, _) = self.lines.leave(m, Sought::Reader);
        self.stored[m].readers -= 1;
        Some(reader)
    }

    /// Puts the value, or joins the line with it where the cell is full. Those who wait to read were answered before.
    pub fn put(&mut self, m: u32, t: u32, v: Value) -> Gave
        requires exists { m < length self.old.cells }
        requires spare { 1 ≤ self.old.spare }
        requires alone { StandsNowhere t self.old }
        requires no_reader { NobodyReads m self.old }
        ensures call { IsCall (Put t v) m self.old self.new (gave_replies t result) }
        ensures to { PutsTo v result (cell_at m self.old) }
        ensures spare { self.old.spare ≤ self.new.spare + 1 }
    {
        match self.try_put(m, v) {
            Tried::Full(value) => {
                self.lines.join(m as usize, t, Want::Put(value));
                Gave::Blocks
            }
            Tried::Done => Gave::Done,
            Tried::Served(taker, value) => Gave::Served(taker, value),
        }
    }

    /// Takes the content where there is one, with the thread whose put was served.
    pub fn try_take(&mut self, m: u32) -> Option<(Value, Option<u32>)>
        requires { m < length self.old.cells }
        ensures call { (t : ℕ) → IsCall (Try_take t) m self.old self.new (tried_take_replies t result) }
        ensures from { TriesToTake result (cell_at m self.old) }
        ensures spare { self.old.spare ≤ self.new.spare }
    {
        let m = m as usize;
        let value = mem::replace(&mut self.stored[m].content, None)?;
        match self.lines.serve(m) {
            Some((putter, Want::Put(next))) => {
                self.stored[m].content = Some(next);
                Some((value, Some(putter)))
            }
            Some((_, Want::Take | Want::Read)) => unreachable!(),
            None => Some((value, None)),
        }
    }

    /// Puts the value where the cell is empty. Those who wait to read were answered before.
    pub fn try_put(&mut self, m: u32, v: Value) -> Tried
        requires exists { m < length self.old.cells }
        requires no_reader { NobodyReads m self.old }
        ensures call { (t : ℕ) → IsCall (Try_put t v) m self.old self.new (tried_put_replies t result) }
        ensures back { HandsBack v result }
        ensures to { TriesToPut v result (cell_at m self.old) }
        ensures spare { self.old.spare ≤ self.new.spare }
    {
        let m = m as usize;
        if self.stored[m].content.is_some() {
            return Tried::Full(v);
        }
        let Some((taker, want)) = self.lines.serve(m) else {
            self.stored[m].content = Some(v);
            return Tried::Done;
        };
        match want {
            Want::Take => Tried::Served(taker, v),
            Want::Read | Want::Put(_) => unreachable!(),
        }
    }

    /// The thread, which stands in the line, leaves it. The time is constant, wherever the thread stands.
    pub fn drop_waiter(&mut self, m: u32, t: u32)
        requires exists { m < length self.old.cells }
        requires stands { stands_in t (cell_at m self.old).line ≡ true }
        ensures call { IsCall (Leave t) m self.old self.new [] }
        ensures spare { self.old.spare ≤ self.new.spare }
    {
        let m = m as usize;
        let (_, want) = self.lines.leave(m, Sought::Thread(t));
        if want.reads() {
            self.stored[m].readers -= 1;
        }
    }

    /// Lends the content.
    pub fn content(&self, m: u32) -> Option<&Value>
        requires { m < length self.now.cells }
        ensures { option_copied result ≡ (cell_at m self.now).content }
    {
        self.stored[m as usize].content.as_ref()
    }
}
