//! Operations on cells.
ghost use Rattle.std.specs.Prelude.{OnOk, OnErr};
ghost use Rattle.hs_rules.specs.declared.entry.Entry.TheVariants as entry;
ghost use Rattle.frame_stack.specs.declared.control.Operation.TheVariants as operation;
ghost use Rattle.world_entries.specs.Worlds.{IsLive, Makes, SameState, Stands, Goes, HasRoom};

use crate::reading::just;
use crate::world::World;
use hs_base::{NoMemory, Value};
use mvar_cell::{Gave, Saw, Took, Tried};

impl World {
    /// The thread takes from the cell, or waits.
    pub fn take(&mut self, t: u32, m: u32)
        requires live { IsLive self.old }
        requires goes { Goes self.old }
        requires room { HasRoom self.old }
        requires stands { Stands self.old t (operation.TakeMVar m) }
        ensures { Makes (entry.Op t) self.old self.new }
    {
        match self.cells.take(m, t) {
            Took::Blocks => self.threads.block(t),
            Took::Done(value) => self.threads.answer(t, value),
            Took::Served(value, putter) => {
                self.threads.answer(t, value);
                self.threads.answer(putter, Value::Unit);
            }
        }
    }

    /// The thread reads the cell, or waits.
    pub fn read(&mut self, t: u32, m: u32) -> Result<(), NoMemory>
        requires live { IsLive self.old }
        requires goes { Goes self.old }
        requires room { HasRoom self.old }
        requires stands { Stands self.old t (operation.ReadMVar m) }
        ensures ok { OnOk result (Makes (entry.Op t) self.old self.new) }
        ensures err { OnErr result (SameState self.old self.new) }
    {
        match self.cells.read(m, t)? {
            Saw::Blocks => self.threads.block(t),
            Saw::Done(value) => self.threads.answer(t, value),
        }
        Ok(())
    }

    /// The thread puts the value, or waits with it.
    pub fn put(&mut self, t: u32, m: u32, v: Value) -> Result<(), NoMemory>
        requires live { IsLive self.old }
        requires goes { Goes self.old }
        requires room { HasRoom self.old }
        requires stands { Stands self.old t (operation.PutMVar m v) }
        ensures ok { OnOk result (Makes (entry.Op t) self.old self.new) }
        ensures err { OnErr result (SameState self.old self.new) }
    {
        let copies = self.copies_for_readers(m, &v)?;
        self.show(m, copies);
        match self.cells.put(m, t, v) {
            Gave::Blocks => self.threads.block(t),
            Gave::Done => self.threads.answer(t, Value::Unit),
            Gave::Served(taker, value) => {
                self.threads.answer(taker, value);
                self.threads.answer(t, Value::Unit);
            }
        }
        Ok(())
    }

    /// The thread takes from the cell where it is full.
    pub fn try_take(&mut self, t: u32, m: u32) -> Result<(), NoMemory>
        requires live { IsLive self.old }
        requires goes { Goes self.old }
        requires room { HasRoom self.old }
        requires stands { Stands self.old t (operation.TryTakeMVar m) }
        ensures ok { OnOk result (Makes (entry.Op t) self.old self.new) }
        ensures err { OnErr result (SameState self.old self.new) }
    {
        let Some(held) = self.cells.content(m) else {
            self.threads.answer(t, Value::Nothing);
            return Ok(());
        };
        let answer = just(self.alloc, held)?;
        let Some((_held, putter)) = self.cells.try_take(m) else {
            unreachable!()
        };
        self.threads.answer(t, answer);
        if let Some(putter) = putter {
            self.threads.answer(putter, Value::Unit);
        }
        Ok(())
    }

    /// The thread puts the value where the cell is empty.
    pub fn try_put(&mut self, t: u32, m: u32, v: Value) -> Result<(), NoMemory>
        requires live { IsLive self.old }
        requires goes { Goes self.old }
        requires room { HasRoom self.old }
        requires stands { Stands self.old t (operation.TryPutMVar m v) }
        ensures ok { OnOk result (Makes (entry.Op t) self.old self.new) }
        ensures err { OnErr result (SameState self.old self.new) }
    {
        let copies = self.copies_for_readers(m, &v)?;
        self.show(m, copies);
        match self.cells.try_put(m, v) {
            Tried::Full(_back) => self.threads.answer(t, Value::Bool(false)),
            Tried::Done => self.threads.answer(t, Value::Bool(true)),
            Tried::Served(taker, value) => {
                self.threads.answer(taker, value);
                self.threads.answer(t, Value::Bool(true));
            }
        }
        Ok(())
    }

    /// The thread makes a cell with this content.
    pub fn fresh(&mut self, t: u32, v: Value)
        requires live { IsLive self.old }
        requires goes { Goes self.old }
        requires room { HasRoom self.old }
        requires stands { Stands self.old t (operation.NewMVar v) }
        ensures { Makes (entry.Op t) self.old self.new }
    {
        let cell = self.cells.fresh(Some(v));
        self.threads.answer(t, Value::Cell(cell));
    }

    /// The thread makes an empty cell.
    pub fn fresh_empty(&mut self, t: u32)
        requires live { IsLive self.old }
        requires goes { Goes self.old }
        requires room { HasRoom self.old }
        requires stands { Stands self.old t operation.NewEmptyMVar }
        ensures { Makes (entry.Op t) self.old self.new }
    {
        let cell = self.cells.fresh(None);
        self.threads.answer(t, Value::Cell(cell));
    }
}
