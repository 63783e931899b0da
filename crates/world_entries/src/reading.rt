//! Those who wait to read a cell: each is answered a copy of the value that comes to it.
ghost use Rattle.std.specs.Prelude.{◌≡◌, ◌≤◌, ◌<◌, ◌+◌, length, IfOk};
ghost use Rattle.hs_base.specs.declared.value.Value.{Value};
ghost use Rattle.rules_meaning.specs.Values.{Just, value_of};
ghost use Rattle.rules_waiting.specs.OneCell.{readers};
ghost use Rattle.mvar_cell.specs.Calls.{cell_at};
ghost use Rattle.thread_table.specs.Rooms.{work_room};
ghost use Rattle.world_entries.specs.Worlds.{SameState, HasRoom};
ghost use Rattle.world_entries.specs.Reading.{AllShown, FullUnread, Are, ReadersStand, Rest};

use crate::world::World;
use hs_base::{NoMemory, Value};
use hs_items::Shared;
use std::alloc::Global;

/// So many copies of a value.
pub fn copies(alloc: Global, value: &Value, n: usize) -> Result<Vec<Value>, NoMemory>
    ensures same { IfOk result (λ vs. Are value.now vs.items) }
    ensures count { IfOk result (λ vs. length vs.items ≡ n) }
{
    let mut copies = Vec::with_capacity(alloc, n)?;
    for _ in 0..n {
        copies.push_reserved(value.copy(alloc)?);
    }
    Ok(copies)
}

/// A copy of a value, as one that is there.
pub fn just(alloc: Global, value: &Value) -> Result<Value, NoMemory>
    ensures { IfOk result (λ v. value_of v ≡ Just (value_of value.now)) }
{
    Ok(Value::Just(Shared::new(alloc, value.copy(alloc)?)?))
}

impl World {
    /// A copy of the value for each thread that waits to read the cell, and room to answer them.
    pub fn copies_for_readers(&mut self, m: u32, v: &Value) -> Result<Vec<Value>, NoMemory>
        requires exists { m < length self.old.cells.cells }
        requires room { HasRoom self.old }
        ensures full { FullUnread m self.old.cells }
        ensures copies { IfOk result (λ vs. Are v.now vs.items × (length vs.items ≡ length (readers (cell_at m self.old.cells).line))) }
        ensures work { IfOk result (λ vs. length vs.items + 3 ≤ work_room self.new.threads) }
        ensures room { HasRoom self.new }
        ensures list { self.new.threads.list ≡ self.old.threads.list }
        ensures flight { self.new.threads.flight ≡ self.old.threads.flight }
        ensures cells { self.new.cells ≡ self.old.cells }
        ensures state { SameState self.old self.new }
    {
        let readers = self.cells.readers(m);
        let copies = copies(self.alloc, v, readers)?;
        let Some(room) = readers.checked_add(3) else {
            return Err(NoMemory);
        };
        self.threads.room_for(room)?;
        Ok(copies)
    }

    /// Answers each thread that waits to read the cell.
    pub fn show(&mut self, m: u32, copies: Vec<Value>)
        requires exists { m < length self.old.cells.cells }
        requires count { length copies.items ≡ length (readers (cell_at m self.old.cells).line) }
        requires stand { ReadersStand m self.old }
        requires room { length copies.items ≤ work_room self.old.threads }
        ensures shown { (v : Value) → Are v copies.items → AllShown v m self.old self.new }
        ensures room { work_room self.old.threads ≤ work_room self.new.threads + length copies.items }
        ensures spare { self.old.cells.spare ≤ self.new.cells.spare }
        ensures rest { Rest self.old self.new }
    {
        let mut copies = copies;
        while let Some(reader) = self.cells.next_reader(m) {
            match copies.pop() {
                Some(copy) => self.threads.answer(reader, copy),
                None => unreachable!(),
            }
        }
    }
}
